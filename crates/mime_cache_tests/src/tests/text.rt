mod hidden;
mod merging;
mod twins;
