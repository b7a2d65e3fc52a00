// The worked rows of a worker, in one thread and in several.

mod bench;
mod threads;
mod turns;
