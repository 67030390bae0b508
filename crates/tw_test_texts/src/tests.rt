mod helpers;
mod lines;
mod scripts;
mod texts;
