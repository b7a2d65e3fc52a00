//! The way from words to a status, over readers and writers in memory.

mod output;
