mod keys;
mod numbers;
mod ranges;
mod texts;
mod values;
