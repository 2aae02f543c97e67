mod kept;
mod matching;
mod names;
