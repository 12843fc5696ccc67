//! What is meant, where it needs no type of the code: limits, forms of texts, the disk, areas and encodings. It has no code.
#![tactic(auto)]
