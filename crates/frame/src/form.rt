// The form of a tree file: its edition, which tree it is and the size of its nodes; in any numbers as a caller says it, and as one to go by.
ghost use Rattle.std.specs.Prelude.{◌≡◌, ◌≤◌};
ghost use Rattle.btree.specs.Decide.{says};
ghost use Rattle.frame.specs.Fields.{Sized, IsEdition, IsTree};
ghost use Rattle.frame.specs.Form.{form_of, OfNumbers, dec_listed, hfs, catalog, key_length, key_size, header_map_of, node_map_of, Fair};

use std::marker::Model;

#[derive(Clone, Copy, PartialEq, Eq)]
pub enum Edition {
    Hfs,
    HfsPlus,
}

#[derive(Clone, Copy, PartialEq, Eq)]
pub enum Tree {
    // The extents overflow file.
    Extents,
    Catalog,
}

// A form as a caller says it, by any numbers: edition 0 is HFS, 1 HFS Plus; tree 0 is the extents overflow file, 1 the catalog; the size is in bytes.
#[derive(Clone, Copy)]
pub struct FormNumbers {
    pub edition: u32,
    pub tree: u32,
    pub size: u32,
}

impl FormNumbers {
    pub fn edition(self) -> Edition
        ensures { IsEdition result self.edition }
    {
        match self.edition {
            0 => Edition::Hfs,
            _ => Edition::HfsPlus,
        }
    }
}

// A form to go by: clauses see its numbers, of which the size of a node is never out of the range of those listed.
#[derive(Clone, Copy)]
pub struct Form {
    numbers: FormNumbers,
}

impl Model for Form {
    ghost use Rattle.frame.specs.declared.form.FormNumbers.{FormNumbers};

    ghost Value = { FormNumbers };

    ghost use Rattle.frame.specs.Fields.{Sized};

    ghost view = { λ f. f.numbers };

    ghost inverse = { λ n. record { numbers = n } };

    ghost invariant = { λ f. Sized f.numbers };
}

// The form of the extents overflow file of an HFS volume.
pub fn of_hfs() -> Form
    ensures { result ≡ hfs }
{
    Form::of_numbers(FormNumbers {
        edition: 0,
        tree: 0,
        size: 512,
    })
}

// The form of its catalog.
pub fn of_catalog() -> Form
    ensures { result ≡ catalog }
{
    Form::of_numbers(FormNumbers {
        edition: 0,
        tree: 1,
        size: 512,
    })
}

impl Form {
    pub fn of_numbers(numbers: FormNumbers) -> Form
        requires { Sized numbers }
        ensures { result ≡ numbers }
    {
        Form { numbers }
    }

    pub fn numbers(self) -> FormNumbers
        ensures { result ≡ self }
    {
        self.numbers
    }

    // That of the extents overflow file of an edition and a node size, where these are listed.
    pub fn listed(edition: u32, size: u32) -> Option<Form>
        ensures { OfNumbers (form_of edition size) result }
    {
        if !is_listed(edition, size) {
            return None;
        }
        Some(Form::of_numbers(FormNumbers {
            edition,
            tree: 0,
            size,
        }))
    }

    pub fn edition(self) -> Edition
        ensures { IsEdition result self.edition }
    {
        self.numbers.edition()
    }

    pub fn tree(self) -> Tree
        ensures { IsTree result self.tree }
    {
        match self.numbers.tree {
            0 => Tree::Extents,
            _ => Tree::Catalog,
        }
    }

    // Bytes of a node.
    pub fn size(self) -> u32
        ensures { (result ≡ self.size) × Fair self }
    {
        self.numbers.size
    }
}

// Test 25: HFS has one size of nodes, HFS Plus seven.
pub fn is_listed(edition: u32, size: u32) -> bool
    ensures { result ≡ says (dec_listed (form_of edition size)) }
{
    match edition {
        0 => size == 512,
        1 => match size {
            512 | 1_024 | 2_048 | 4_096 | 8_192 | 16_384 | 32_768 => true,
            _ => false,
        },
        _ => false,
    }
}

// The key length that the header names.
pub fn key_length(form: Form) -> u32
    ensures { result ≡ key_length form }
{
    match (form.tree(), form.edition()) {
        (Tree::Catalog, _) => 37,
        (Tree::Extents, Edition::Hfs) => 7,
        (Tree::Extents, Edition::HfsPlus) => 10,
    }
}

// Bytes of a key in an index record.
pub fn key_size(form: Form) -> u32
    ensures { (result ≡ key_size form) × (result ≤ 38) }
{
    match (form.tree(), form.edition()) {
        (Tree::Catalog, _) => 38,
        (Tree::Extents, Edition::Hfs) => 8,
        (Tree::Extents, Edition::HfsPlus) => 12,
    }
}

// Bytes of the map record in the header.
pub fn header_map(form: Form) -> usize
    ensures { (result ≡ header_map_of form) × (result ≤ 32768) }
{
    form.size() as usize - 256
}

// Bytes of the map record in a map node.
pub fn node_map(form: Form) -> usize
    ensures { (result ≡ node_map_of form) × (result ≤ 32768) }
{
    match form.edition() {
        Edition::Hfs => form.size() as usize - 18,
        Edition::HfsPlus => form.size() as usize - 20,
    }
}
