mod base;
mod caches;
mod checked;
mod lines;
mod load;
mod store;
mod text;
mod view;
