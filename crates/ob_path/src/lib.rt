//! An index by Path ORAM as a function: a tree of buckets, a stash, a leaf for each key, and one access of a key. It has
//! no function of its own; the laws are those of `ob_tree`.
#![tactic(auto)]
