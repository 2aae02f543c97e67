mod checked;
mod lookup;
mod types;
