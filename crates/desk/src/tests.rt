//! Whole runs over objects in memory, one file a command.

mod assignments;
mod check;
mod city;
mod generated;
mod running;
mod solve;
mod texts;
