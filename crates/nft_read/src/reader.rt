//! The lines of a table so far.

ghost use Rattle.std.specs.Prelude.{◌≡◌, ◌<◌, ◌∷◌, ◌++◌, [], IfNone, IfOk, IfSome, None, length};
ghost use Rattle.nft_read.specs.declared.reader.Phase.TheVariants.{Done, Within};
ghost use Rattle.nft_rules.specs.declared.table.Table.{Table};
ghost use Rattle.nft_read.specs.Shape.{rule_shape, table_shape};
ghost use Rattle.nft_read.specs.inner.TableSteps.{closed, done_state, expected, names_of, opened, pushed, start, step, with_rule, with_shape};
ghost use Rattle.nft_read.specs.inner.LineSteps.{index_of};

use crate::rule::read_rule;
use crate::verdict::index_of;
use crate::words::{after, word};
use indexmap::IndexSet;
use nft_rules::{Chain, Rule, Table};
use nft_space::{is_chain_name, is_rule};
use std::alloc::{AllocError, Global};
use std::marker::Model;

/// The greatest number of chains besides the base chain.
const CHAIN_LIMIT: usize = 100_000;

/// A place in the text of a table.
#[derive(Clone, Copy)]
pub(crate) enum Phase {
    /// Before the first line.
    Start,
    /// Before the first line of a chain.
    Between,
    /// After the first line of the base chain.
    Base,
    /// Within a chain.
    Within,
    /// Before the blank line after a chain.
    Blank,
    /// Within the base chain.
    Forward,
    /// After the base chain.
    Closed,
    /// After the last line.
    Done,
}

/// The chains so far and their names, the name and the rules of the current chain.
#[derive(Drop)]
pub(crate) struct Reader {
    phase: Phase,
    name: Vec<u8>,
    rules: Vec<Rule>,
    chains: Vec<Chain>,
    names: IndexSet<Vec<u8>>,
}

impl Model for Reader {
    ghost use Rattle.nft_read.specs.inner.ReaderView.{reader_state, KnowsNames};
    ghost use Rattle.nft_read.specs.inner.TableSteps.{State};

    ghost Value = { State };

    ghost view = { λ r. reader_state r.phase r.name.items r.rules.items r.chains.items };

    ghost invariant = { λ r. KnowsNames r.names.keys r.chains.items };
}

impl Reader {
    /// Returns a reader before the first line.
    pub fn new(alloc: Global) -> Reader
        ensures { result ≡ start }
    {
        Reader {
            phase: Phase::Start,
            name: Vec::new(alloc),
            rules: Vec::new(alloc),
            chains: Vec::new(alloc),
            names: IndexSet::new(alloc),
        }
    }

    /// Parses the next line. `None` means that the line is bad.
    #[tactic(auto, unfolding(crate::specs::inner::TableSteps::step))]
    pub fn step(self, alloc: Global, line: &[u8]) -> Result<Option<Reader>, AllocError>
        ensures { IfOk result (λ next. next ≡ step self line.now) }
    {
        match self.phase {
            Phase::Start => Ok(self.expected(line, b"table ip topos {", Phase::Between)),
            Phase::Between => self.opened(alloc, line),
            Phase::Base => Ok(self.expected(
                line,
                b"\t\ttype filter hook forward priority filter; policy drop;",
                Phase::Forward,
            )),
            Phase::Within if line == b"\t}".as_slice() => self.closed(alloc),
            Phase::Blank => Ok(self.expected(line, b"", Phase::Between)),
            Phase::Forward if line == b"\t}".as_slice() => Ok(Some(self.at(Phase::Closed))),
            Phase::Within | Phase::Forward => self.with_rule(alloc, line),
            Phase::Closed => Ok(self.expected(line, b"}", Phase::Done)),
            Phase::Done => Ok(None),
        }
    }

    fn at(self, phase: Phase) -> Reader
        ensures { result ≡ record self { phase = phase } }
    {
        let mut reader = self;
        reader.phase = phase;
        reader
    }

    fn expected(self, line: &[u8], text: &[u8], phase: Phase) -> Option<Reader>
        ensures { result ≡ expected self line.now text.now phase }
    {
        if line == text {
            Some(self.at(phase))
        } else {
            None
        }
    }

    fn opened(self, alloc: Global, line: &[u8]) -> Result<Option<Reader>, AllocError>
        ensures { IfOk result (λ next. next ≡ opened self line.now) }
    {
        if line == b"\tchain forward {".as_slice() {
            return Ok(Some(self.at(Phase::Base)));
        }
        match after(b"\tchain ", line) {
            None => Ok(None),
            Some(text) if is_chain_name(word(text)) => {
                Ok(Some(self.opened_as(alloc, word(text))?))
            }
            Some(_) => Ok(None),
        }
    }

    fn opened_as(self, alloc: Global, name: &[u8]) -> Result<Reader, AllocError>
        ensures { IfOk result (λ next. next ≡ record self { phase = Within; name = name.now; rules = [] }) }
    {
        let name = Vec::from_slice(alloc, name)?;
        let mut reader = self;
        reader.phase = Phase::Within;
        reader.name = name;
        reader.rules = Vec::new(alloc);
        Ok(reader)
    }

    fn closed(self, alloc: Global) -> Result<Option<Reader>, AllocError>
        ensures { IfOk result (λ next. next ≡ closed self) }
    {
        if self.chains.len() >= CHAIN_LIMIT {
            return Ok(None);
        }
        match index_of(&self.names, &self.name) {
            Some(_) => Ok(None),
            None => Ok(Some(self.pushed(alloc)?)),
        }
    }

    /// Adds the current chain to the chains before it.
    fn pushed(self, alloc: Global) -> Result<Reader, AllocError>
        requires few { length self.chains < 100000 }
        requires fresh { index_of (names_of self.chains) self.name ≡ None }
        ensures { IfOk result (λ next. next ≡ pushed self) }
    {
        let Reader {
            phase: _,
            name,
            rules,
            mut chains,
            mut names,
        } = self;
        let key = Vec::from_slice(alloc, &name)?;
        names.insert(key)?;
        chains.push(Chain { name, rules })?;
        Ok(Reader {
            phase: Phase::Blank,
            name: Vec::new(alloc),
            rules: Vec::new(alloc),
            chains,
            names,
        })
    }

    fn with_rule(self, alloc: Global, line: &[u8]) -> Result<Option<Reader>, AllocError>
        ensures { IfOk result (λ next. next ≡ with_rule self line.now) }
    {
        match read_rule(alloc, &self.names, line)? {
            None => Ok(None),
            Some(rule) => self.with_valid(rule),
        }
    }

    /// Adds a rule, if it is valid after the chains so far.
    #[tactic(auto, using(crate::proofs::ShapeTests::shape_tested))]
    fn with_valid(self, rule: Rule) -> Result<Option<Reader>, AllocError>
        ensures { IfOk result (λ next. next ≡ with_shape self (rule_shape rule)) }
    {
        if is_rule(self.chains.len(), &rule) {
            Ok(Some(self.with(rule)?))
        } else {
            Ok(None)
        }
    }

    fn with(self, rule: Rule) -> Result<Reader, AllocError>
        ensures { IfOk result (λ next. next ≡ record self { rules = self.rules ++ rule_shape rule ∷ [] }) }
    {
        let mut reader = self;
        reader.rules.push(rule)?;
        Ok(reader)
    }

    /// Returns the table after its last line.
    pub fn finish(self) -> Option<Table>
        ensures some { IfSome result (λ table. done_state (table_shape table) ≡ self) }
        ensures none { IfNone result ((table : Table) → done_state (table_shape table) ≡ self → ⊥) }
    {
        match self.phase {
            Phase::Done if self.name.is_empty() => Some(Table {
                forward: self.rules,
                chains: self.chains,
            }),
            _ => None,
        }
    }
}
