//! What the definitions promise, each the contract of a function with an empty body.
ghost use Rattle.text_terms.specs.TokenLines.{TokenLinesAreTold, TokensAreReadBack};

/// A line that is cut to its first 12 words, each to its first 21 bytes, is the same token, or
/// none, as the line itself.
pub fn token_lines_are_told()
    ensures { TokenLinesAreTold }
{}

/// The words of a token are read back as the token, where its parameters are at most 4,294,967,295
/// and its tuple has a function for each dimension.
pub fn tokens_are_read_back()
    ensures { TokensAreReadBack }
{}
