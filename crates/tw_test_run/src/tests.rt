mod board;
mod exchange;
mod executive;
mod helpers;
mod larger;
mod progress;
mod runs;
