mod heap;
mod helpers;
mod lists;
mod mail;
mod pool;
mod process;
mod row;
