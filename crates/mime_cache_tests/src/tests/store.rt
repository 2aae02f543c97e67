mod bytes;
mod limits;
mod written;
