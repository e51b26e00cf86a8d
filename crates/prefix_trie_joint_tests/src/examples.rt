//! Programs over joint maps as users write them, with what they promise.
mod access_list;
mod country_table;
