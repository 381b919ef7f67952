//! Tests of numbers that are read from words.
use std::test::Fail;
use text_terms::read_number;

#[test]
fn a_number_has_1_to_20_digits(rt: HostRuntime) -> Result<(), Fail> {
    assert!(rt; read_number(b"0") == Some(0));
    assert!(rt; read_number(b"0042") == Some(42));
    assert!(rt; read_number(b"99999999999999999999") == Some(99_999_999_999_999_999_999));
    assert!(rt; read_number(b"000000000000000000042") == None);
    assert!(rt; read_number(b"") == None);
    assert!(rt; read_number(b"4x") == None);
    assert!(rt; read_number(b"-4") == None);
    Ok(())
}
