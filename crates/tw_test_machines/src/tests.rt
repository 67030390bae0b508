mod from_json;
mod helpers;
mod scenes;
mod timers;
mod warnings;
