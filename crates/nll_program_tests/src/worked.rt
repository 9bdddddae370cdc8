//! All worked examples of the whole program: what it prints of a text by words, and with which
//! status. Its parts, in order, are tables, each with a test: together they would be too large a
//! constant for one function. Some texts at limits are made by code; each other one is written out.
use super::examples::compare_examples;
use super::worked_bodies::BODIES;
use super::worked_borders::{BORDERS, BYTES, CONSTRAINTS, EDGES};
use super::worked_facts::FACTS;
use super::worked_program::{OWNERS, PROGRAM};
use super::worked_versions::VERSION_2;

#[test]
fn facts_are_right(rt: HostRuntime) {
    compare_examples(&rt, FACTS);
}

#[test]
fn bodies_are_right(rt: HostRuntime) {
    compare_examples(&rt, BODIES);
}

#[test]
fn the_program_is_right(rt: HostRuntime) {
    compare_examples(&rt, PROGRAM);
}

#[test]
fn owners_are_right(rt: HostRuntime) {
    compare_examples(&rt, OWNERS);
}

#[test]
fn borders_are_right(rt: HostRuntime) {
    compare_examples(&rt, BORDERS);
}

#[test]
fn bytes_are_counted(rt: HostRuntime) {
    compare_examples(&rt, BYTES);
}

#[test]
fn edges_are_counted(rt: HostRuntime) {
    compare_examples(&rt, EDGES);
}

#[test]
fn constraints_are_counted(rt: HostRuntime) {
    compare_examples(&rt, CONSTRAINTS);
}

#[test]
fn version_2_is_right(rt: HostRuntime) {
    compare_examples(&rt, VERSION_2);
}
