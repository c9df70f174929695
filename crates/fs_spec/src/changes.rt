//! Changes of files, and what they leave of entries, kinds, counts of names and how much files take.
