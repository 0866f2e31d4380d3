//! The forms of words.

use stack_equilibrium::Question;

/// A kind of built-in stack.
#[derive(Clone, Copy)]
pub enum Kind {
    /// Bricks of which each is moved by half a brick over its number from the top.
    Harmonic,
    /// An inverted triangle.
    Triangle,
    /// A slab of rows of two lengths.
    Slab,
}

/// What the words ask for.
#[derive(Clone, Copy)]
pub enum Form<'a> {
    /// Checks a certificate for a model; the names of their files.
    Check {
        model: &'a str,
        certificate: &'a str,
    },
    /// Lists the contacts of a model; the name of its file.
    Contacts {
        model: &'a str,
    },
    /// Judges the dead or the live loads of a model within a budget of pivots; the name of its file.
    Judge {
        question: Question,
        model: &'a str,
        budget: u32,
    },
    /// Lists the contacts of a model and the forces of an accepted certificate; the names of their files.
    Table {
        model: &'a str,
        certificate: &'a str,
    },
    /// Prints a built-in stack.
    Stack {
        kind: Kind,
        size: u32,
    },
    /// Judges the live load of a built-in wall.
    Sample {
        number: u32,
    },
    /// Judges the whole range of factors of a model within a budget of pivots a side; the name of its file.
    Range {
        model: &'a str,
        budget: u32,
    },
    /// Judges the stages of an order of building within a budget of pivots a stage; the names of both files.
    Stages {
        model: &'a str,
        order: &'a str,
        budget: u32,
    },
    /// Judges two live loads, by their numbers from 1 among all loads, in directions of both together within a budget
    /// of pivots a direction; the names of both files.
    Yield {
        model: &'a str,
        first: u32,
        second: u32,
        directions: &'a str,
        budget: u32,
    },
}

/// The budget of pivots that isn't given.
pub const DEFAULT_BUDGET: u32 = 20_000;

/// What is asked of an accepted certificate.
#[derive(Clone, Copy)]
pub enum Asked {
    /// That it is accepted.
    Acceptance,
    /// Its tables.
    Tables,
}
