mod base;
mod checked;
mod request;
mod text;
