//! `acpitool`: several files and folders, definition blocks that call others, images and loaders of folders, tables that are
//! compared, files that are missing or can't be written, words without a file, and writers that fail.

mod blocks;
mod compared;
mod files;
mod folders;
mod json;
mod laid;
mod loaded;
mod machine;
mod program;
mod words;
mod writes;
