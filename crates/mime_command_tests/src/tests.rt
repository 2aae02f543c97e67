mod caches;
mod faults;
mod listed;
mod ran;
mod texts;
