mod folder;
mod streams;
