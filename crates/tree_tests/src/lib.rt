//! Tests of search trees and of the work board over them, with ample memory. The nodes and outcomes
//! of trees are rows worked out by hand. Of the board there are scripts, a thousand random
//! schedules, and a worker that is short of memory at each moment: every board that is over gives
//! the outcome of one thread, and so do several workers that share a tree.
#![tactic(auto)]

#[cfg(test)]
mod bins;
#[cfg(test)]
mod board_rows;
#[cfg(test)]
mod cases;
#[cfg(test)]
mod choices;
#[cfg(test)]
mod compare;
#[cfg(test)]
mod paths;
#[cfg(test)]
mod pools;
#[cfg(test)]
mod runner;
#[cfg(test)]
mod schedules;
#[cfg(test)]
mod scripts;
#[cfg(test)]
mod short_tree;
#[cfg(test)]
mod shortage;
#[cfg(test)]
mod trees;
#[cfg(test)]
mod workers;
