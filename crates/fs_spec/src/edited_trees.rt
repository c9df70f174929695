//! What changes of a tree of files do to its paths, and that it stays a tree.
