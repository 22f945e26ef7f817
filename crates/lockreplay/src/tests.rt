//! What no clause says: scripts with their answers, what readers, writers and memory may do, and texts.
mod rows;
mod scripts;
mod streams;
mod table_is_word;
mod texts;
mod words;
