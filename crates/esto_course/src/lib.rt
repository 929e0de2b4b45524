//! Courses of steps, each of which goes on with a value or stops with an error. There is no code here: the crate has
//! their definitions and the laws by which the course of a chain of steps follows from the courses of its steps.
#![tactic(auto)]
