//! Lemmas that several crates need and the library lacks: integers, members of lists, lists in order,
//! options. It holds no code and no definition that a contract cites, and nothing stands below it but
//! the library.
#![tactic(auto)]
