//! Facts of a kind of diagnostic, for programs.
ghost use Rattle.std.specs.Prelude.{◌≡◌, [], ◌++◌, ◌∷◌, OnOk};
ghost use Rattle.report_diagnostics.specs.Facts.{facts_tokens, value_tokens};

use crate::text::Text;
use json::Writer;
use report_json::WriteJson;
use std::alloc::{AllocError, Global};

/// The value of a fact.
#[derive(Drop)]
pub enum FactValue {
    Number(usize),
    Word(Text),
    Words(Vec<Text>),
}

/// A fact: its name, as `expected`, and its value.
#[derive(Drop)]
pub struct Fact {
    pub name: Text,
    pub value: FactValue,
}

/// The facts of a diagnostic, in the order in which they are written.
#[derive(Drop)]
pub struct Facts {
    pub list: Vec<Fact>,
}

impl Facts {
    /// Returns no facts. Allocates nothing.
    pub fn none(alloc: Global) -> Facts
        ensures { result.list.items ≡ [] }
    {
        Facts {
            list: Vec::new(alloc),
        }
    }

    /// Adds a fact.
    ///
    /// # Errors
    ///
    /// `AllocError` if an allocation fails.
    pub fn add(&mut self, name: Text, value: FactValue) -> Result<(), AllocError>
        ensures { OnOk result (self.new.list.items ≡ self.old.list.items ++ record { name = name; value = value } ∷ []) }
    {
        self.list.push(Fact { name, value })?;
        Ok(())
    }
}

impl WriteJson for FactValue {
    ghost tokens = { λ value. value_tokens value };

    #[tactic(auto, unfolding(crate::specs::Facts::value_tokens))]
    fn write_json(&self, alloc: Global, writer: &mut Writer) -> Result<(), AllocError> {
        match self {
            FactValue::Number(number) => number.write_json(alloc, writer),
            FactValue::Word(word) => word.write_json(alloc, writer),
            FactValue::Words(words) => words.write_json(alloc, writer),
        }
    }
}

impl WriteJson for Facts {
    ghost tokens = { λ facts. facts_tokens facts.list.items };

    fn write_json(&self, alloc: Global, writer: &mut Writer) -> Result<(), AllocError> {
        writer.begin_object()?;
        for fact in &self.list {
            writer.key(fact.name.as_str())?;
            fact.value.write_json(alloc, writer)?;
        }
        writer.end_object()
    }
}
