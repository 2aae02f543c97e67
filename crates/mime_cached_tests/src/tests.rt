mod cached;
mod checked;
