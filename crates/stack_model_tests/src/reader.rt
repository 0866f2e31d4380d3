//! A model's file is read, and written so that it is read back; one fault of each kind is named. The other faults and
//! spellings are rows of the examples.

use crate::models::{MODELS, Named};
use stack_model::{Key, Model, ModelError, Spot};
use stack_reader::{ReadError, read_model, write_model};
use std::alloc::Global;
use std::test::*;

const POST: &str = "[[material]]\nname = \"stone\"\nweight = 1\nfriction = [1, 2]\n\n\
    [[block]]\nname = \"ground\"\nmaterial = \"stone\"\nfixed = true\n\
    corners = [[-10, -1], [10, -1], [10, 0], [-10, 0]]\n\n\
    [[block]]\nname = \"post\"\nmaterial = \"stone\"\ncorners = [[0, 0], [0, 4], [2, 4], [2, 0]]\n\n\
    [[load]]\nblock = \"post\"\nkind = \"live\"\nat = [0, 4]\nforce = [1, 0]\n";

/// The head of the post's file in version 2, and a joint that stands behind its blocks.
const HEAD: &str = "version = 2\nsway = [1, -2]\n\n";

const JOINT: &str = "\n[[joint]]\nfirst = \"stone\"\nsecond = \"stone\"\nfriction = [3, 4]\n";

fn model_of(alloc: Global, text: &[u8]) -> Option<Model> {
    read_model(alloc, text).ok()
}

/// The model that a text describes, as text.
fn shown(alloc: Global, text: &[u8]) -> Option<String> {
    let model = model_of(alloc, text)?;
    format!(in alloc; "{model:?}").ok()
}

/// The model that a text describes, as it is written.
fn written(alloc: Global, text: &[u8]) -> Option<Vec<u8>> {
    let model = model_of(alloc, text)?;
    write_model(alloc, &model).ok()
}

fn are_shown_alike(alloc: Global, text: &[u8], other: &[u8]) -> Option<bool> {
    let first = shown(alloc, text)?;
    let second = shown(alloc, other)?;
    Some(first == second)
}

fn is_read_back(alloc: Global, text: &[u8]) -> Option<bool> {
    let written = written(alloc, text)?;
    are_shown_alike(alloc, text, written.as_slice())
}

/// Materials, bodies, loads and joints of a model, whether its second body is the post, its version and its sway.
type Told = ([usize; 4], bool, i64, (i64, i64));

fn told(model: &Model) -> Told {
    let counts = [
        model.materials(),
        model.bodies(),
        model.loads(),
        model.joints(),
    ];
    let is_post = model.bodies() > 1 && model.name(1) == "post";
    (counts, is_post, model.version(), model.sway())
}

fn told_of(alloc: Global, text: &[u8]) -> Option<Told> {
    let model = model_of(alloc, text)?;
    Some(told(&model))
}

/// Whether the model of a text has these, and is read back as it was written.
fn is_told_and_read_back(alloc: Global, pieces: &[&str], wanted: Told) -> bool {
    match pieces.concat(alloc) {
        Ok(text) => {
            told_of(alloc, text.as_bytes()) == Some(wanted)
                && is_read_back(alloc, text.as_bytes()) == Some(true)
        }
        Err(_) => false,
    }
}

/// Also if it has a joint and a sway.
#[test]
fn a_written_model_is_read_back(rt: HostRuntime) {
    let alloc = rt.alloc();
    let post = ([1, 2, 1, 0], true, 1, (0, 0));
    let joint = ([1, 2, 1, 1], true, 2, (1, -2));
    let found = [
        is_told_and_read_back(alloc, &[POST], post),
        is_told_and_read_back(alloc, &[HEAD, POST, JOINT], joint),
    ];
    assert!(rt; found == [true; 2]);
}

fn are_read_back(alloc: Global, pieces: &[&str]) -> Option<bool> {
    let text = pieces.concat(alloc).ok()?;
    is_read_back(alloc, text.as_bytes())
}

/// The first model that isn't read back as it was written.
fn changed(alloc: Global, models: &[Named]) -> Option<&'static str> {
    for model in models {
        if are_read_back(alloc, model.pieces) != Some(true) {
            return Some(model.name);
        }
    }
    None
}

#[test]
fn a_model_of_each_kind_is_read_back(rt: HostRuntime) {
    assert!(rt; changed(rt.alloc(), MODELS).is_none());
}

fn is_fault(alloc: Global, text: &[u8], wanted: ReadError) -> bool {
    read_model(alloc, text).err() == Some(wanted)
}

/// Whether this is the fault of the post's file in which the first of these words is replaced.
fn is_fault_with(alloc: Global, from: &str, to: &str, wanted: ReadError) -> bool {
    match POST.replacen(alloc, from, to, 1) {
        Ok(text) => is_fault(alloc, text.as_bytes(), wanted),
        Err(_) => false,
    }
}

const KIND: ReadError = ReadError::Kind {
    spot: Spot::Material(0),
    key: Key::Weight,
};

const TWICE: ReadError = ReadError::Model(ModelError::SameName {
    spot: Spot::Block(1),
});

#[test]
fn the_first_fault_is_named(rt: HostRuntime) {
    let alloc = rt.alloc();
    let found = [
        is_fault(alloc, b"[[material", ReadError::NotToml),
        is_fault_with(alloc, "weight = 1", "weight = 1.0", KIND),
        is_fault_with(alloc, "\"post\"", "\"ground\"", TWICE),
    ];
    assert!(rt; found == [true; 3]);
}
