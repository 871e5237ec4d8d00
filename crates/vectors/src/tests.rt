// Examples of every public call, run through the code.
mod checks;
mod drives;
mod lines;
mod machines;
mod planning;
mod reading;
mod rows;
mod running;
mod sets_and_rules;
