//! The nodes of the symbols that were reached, and their texts.
ghost use Rattle.std.specs.Prelude.{◌≡◌, ◌+◌, ◌++◌, ◌∷◌, [], false, None, Some, IfOk, OnOk, length, map, option_map, option_and_then};
ghost use Rattle.std.specs.Prelude.{slice_get};
ghost use Rattle.lalrpop_norm_tree.specs.Symbols.{at, nonterminal, symbol_view};
ghost use Rattle.lalrpop_norm_tree.specs.SymbolTexts.{part_text};
ghost use Rattle.lalrpop_norm_faults.specs.Faults.{Refuses, IsFirst, fault_if};
ghost use Rattle.lalrpop_norm_faults.specs.declared.kind.FaultKind.TheVariants.{SharedName};
ghost use Rattle.lalrpop_norm_nodes.specs.Meeting.{first_with_text};
ghost use Rattle.lalrpop_norm_nodes.specs.Wholes.{symbols, Fits, built, part_at, StandsFor, IsNew, Grows, nodes_of};
ghost use Rattle.lalrpop_norm_nodes.specs.Tables.{wholes_in, is_taken_in, seen_in, own_at, own_in, own_text_in, is_declared_in};
ghost use Rattle.lalrpop_norm_nodes.specs.Tables.{IsNodeTable, IsCounted, TableMeets, refused_in, waiting_in, numbered_in, AreNumbered};
ghost use Rattle.lalrpop_norm_nodes.specs.Waits.{LeavesWaiting};

use crate::node::{Leaf, Node, Nodes};
use crate::texts::{Counter, make_text};
use lalrpop_norm_faults::{FaultKind, NormFailure, NormResult, refusal};
use lalrpop_norm_names::Seeded;
use lalrpop_norm_tree::grammar::parse_tree::{
    Atom, NoMemory, NonterminalString, Span, Symbol, SymbolKind,
};
use std::alloc::Global;
use std::collections::{HashMap, HashSet};
use std::mem;

/// A symbol on the worklist (`waiting` for its rule), where it was first reached.
#[derive(Drop)]
pub struct Waiting {
    /// The id of its node.
    pub number: usize,
    /// The symbol, its parts rewritten.
    pub symbol: Symbol,
}

/// The symbols that were reached, as interned nodes. An id stands for the same term as long as the table is there.
#[derive(Drop)]
pub struct Table {
    /// The names that the grammar declares.
    names: HashSet<Atom, Seeded>,
    nodes: Nodes,
    /// The id of the node of each text.
    places: HashMap<Atom, usize, Seeded>,
    /// How many texts were made.
    made: Counter,
    /// The worklist: the symbols whose rules are not generated yet, in the order in which they were reached.
    waiting: Vec<Waiting>,
    /// The id that `Leaf::NoSymbols` got when it was interned last. Another node may have it if none was.
    no_symbols: usize,
}

fn shared_name(alloc: Global, name: &Atom, span: Span, is_declared: bool) -> NormFailure
    ensures { IsFirst ((SharedName, span) ∷ []) result }
{
    if is_declared {
        return refusal(
            FaultKind::SharedName,
            span,
            format!(in alloc;
                "the nonterminal that is generated for `{name}` would have the name of a rule: rename that rule"
            ),
        );
    }
    refusal(
        FaultKind::SharedName,
        span,
        format!(in alloc;
            "another symbol has the text `{name}` too, and the two would be one generated nonterminal: rename a part in which they differ"
        ),
    )
}

impl Table {
    /// A table for a grammar that declares these names, with room for that many nodes: no symbol was reached yet.
    pub fn with_room(
        alloc: Global,
        names: HashSet<Atom, Seeded>,
        hash_builder: Seeded,
        count: usize,
    ) -> Result<Table, NoMemory>
        ensures table { IfOk result IsNodeTable }
        ensures counted { IfOk result IsCounted }
        ensures seen { IfOk result (λ t. seen_in t ≡ []) }
        ensures waiting { IfOk result (λ t. waiting_in t ≡ []) }
        ensures numbers { IfOk result (λ t. numbered_in t ≡ []) }
        ensures names { IfOk result (λ t. t.names ≡ names) }
    {
        Ok(Table {
            names,
            nodes: Nodes::with_room(alloc, hash_builder, count)?,
            places: HashMap::with_hasher(alloc, hash_builder),
            made: Counter::new(),
            waiting: Vec::new(alloc),
            no_symbols: 0,
        })
    }

    /// How many texts were made: as many as there are symbols that are desugared.
    pub fn text_count(&self) -> usize
        requires { IsCounted self.now }
        ensures { result ≡ length (seen_in self.now) }
    {
        self.made.count()
    }

    /// Whether a text is a declared name, or that of a symbol that was reached.
    fn is_taken(&self, name: &Atom) -> bool
        requires { IsNodeTable self.now }
        ensures { result ≡ is_taken_in self.now name.now }
    {
        self.names.contains(name) || self.places.contains_key(name)
    }

    /// The node of an id.
    pub fn node(&self, number: usize) -> Option<&Node>
        ensures { option_map (λ n. n.now) result ≡ slice_get (nodes_of self.now.nodes) number }
    {
        match self.nodes.rows.get_index(number) {
            Some((node, _)) => Some(node),
            None => None,
        }
    }

    /// The text of a node, if it is desugared.
    pub fn text_of(&self, number: usize) -> Option<&Atom>
        requires { IsNodeTable self.now }
        ensures { option_map (λ t. t.now) result ≡ option_and_then own_text_in (slice_get (wholes_in self.now) number) }
    {
        match self.nodes.rows.get_index(number) {
            Some((_, text)) => text.as_ref(),
            None => None,
        }
    }

    /// The id of a node that is not desugared.
    pub fn enter(&mut self, node: Node) -> Result<usize, NoMemory>
        requires table { IsNodeTable self.old }
        requires fits { Fits (wholes_in self.old) node }
        requires plain { own_text_in (built (wholes_in self.old) node) ≡ None }
        ensures meets { OnOk result (TableMeets self.old self.new []) }
        ensures counted { OnOk result (self.new.made ≡ self.old.made) }
        ensures waiting { OnOk result (self.new.waiting ≡ self.old.waiting) }
        ensures number { IfOk result (λ i. StandsFor (wholes_in self.new) i (built (wholes_in self.old) node)) }
    {
        self.nodes.enter(node)
    }

    /// The id of `Leaf::NoSymbols`, with which each row begins. Once it is interned, it is not looked up again.
    pub fn enter_no_symbols(&mut self) -> Result<usize, NoMemory>
        requires { IsNodeTable self.old }
        ensures meets { OnOk result (TableMeets self.old self.new []) }
        ensures counted { OnOk result (self.new.made ≡ self.old.made) }
        ensures waiting { OnOk result (self.new.waiting ≡ self.old.waiting) }
        ensures number { IfOk result (λ i. StandsFor (wholes_in self.new) i (symbols [])) }
    {
        if let Some(Node::Leaf(Leaf::NoSymbols)) = self.node(self.no_symbols) {
            return Ok(self.no_symbols);
        }
        let number = self.nodes.enter(Node::Leaf(Leaf::NoSymbols))?;
        self.no_symbols = number;
        Ok(number)
    }

    /// Adds a new node last that is desugared to a rule of that text.
    fn put_made(&mut self, node: Node, name: Atom) -> Result<usize, NoMemory>
        requires table { IsNodeTable self.old }
        requires fits { Fits (wholes_in self.old) node }
        requires new { IsNew (wholes_in self.old) (built (wholes_in self.old) node) }
        requires made { own_text_in (built (wholes_in self.old) node) ≡ Some name }
        requires first { first_with_text name (seen_in self.old) ≡ None }
        requires free { is_declared_in self.old name ≡ false }
        ensures table { OnOk result (IsNodeTable self.new) }
        ensures seen { OnOk result (seen_in self.new ≡ seen_in self.old ++ own_in (built (wholes_in self.old) node)) }
        ensures names { OnOk result (self.new.names ≡ self.old.names) }
        ensures grows { OnOk result (Grows (wholes_in self.old) (wholes_in self.new)) }
        ensures counted { OnOk result (self.new.made ≡ self.old.made) }
        ensures waiting { OnOk result (self.new.waiting ≡ self.old.waiting) }
        ensures number { IfOk result (λ i. StandsFor (wholes_in self.new) i (built (wholes_in self.old) node)) }
    {
        let key = name.clone()?;
        let number = self.nodes.put(node, Some(name))?;
        self.places.insert(key, number)?;
        Ok(number)
    }

    /// The text of a new node, if nothing else has it.
    fn free_text(&mut self, alloc: Global, symbol: &Symbol) -> NormResult<Atom>
        requires table { IsNodeTable self.old }
        requires counted { IsCounted self.old }
        ensures refuses { Refuses result
            (fault_if (is_taken_in self.old (part_text (symbol_view symbol.now))) (SharedName, symbol.now.span)) }
        ensures text { IfOk result (λ n. n ≡ part_text (symbol_view symbol.now)) }
        ensures counted { OnOk result (self.new.made.count ≡ self.old.made.count + 1) }
        ensures names { OnOk result (self.new.names ≡ self.old.names) }
        ensures nodes { OnOk result (self.new.nodes ≡ self.old.nodes) }
        ensures places { OnOk result (self.new.places ≡ self.old.places) }
        ensures waiting { OnOk result (self.new.waiting ≡ self.old.waiting) }
    {
        // `len` is called for its contract clause that it is small, which the proof cites.
        let _nodes = self.nodes.rows.len();
        let name = make_text(alloc, symbol, &mut self.made)?;
        if self.is_taken(&name) {
            let is_declared = self.names.contains(&name);
            return Err(shared_name(alloc, &name, symbol.span, is_declared));
        }
        Ok(name)
    }

    /// Rewrites a symbol to the nonterminal of its node's text.
    fn put_name(&self, number: usize, symbol: &mut Symbol) -> Result<(), NoMemory>
        requires table { IsNodeTable self.now }
        requires text { option_and_then own_text_in (slice_get (wholes_in self.now) number) ≡ Some (part_text (symbol_view symbol.old)) }
        ensures { OnOk result (symbol_view symbol.new ≡ at symbol.old.span (nonterminal (part_text (symbol_view symbol.old)))) }
    {
        if let Some(name) = self.text_of(number) {
            symbol.kind = SymbolKind::Nonterminal(NonterminalString(name.clone()?));
        }
        Ok(())
    }

    /// Rewrites a symbol to the nonterminal of its text, and adds the symbol to the worklist.
    fn put_waiting(
        &mut self,
        number: usize,
        name: Atom,
        symbol: &mut Symbol,
    ) -> Result<(), NoMemory>
        requires table { IsNodeTable self.old }
        requires text { option_and_then own_text_in (slice_get (wholes_in self.old) number) ≡ Some (part_text (symbol_view symbol.old)) }
        ensures table { OnOk result (IsNodeTable self.new) }
        ensures names { OnOk result (self.new.names ≡ self.old.names) }
        ensures nodes { OnOk result (self.new.nodes ≡ self.old.nodes) }
        ensures counted { OnOk result (self.new.made ≡ self.old.made) }
        ensures waiting { OnOk result (waiting_in self.new ≡ waiting_in self.old ++ symbol_view symbol.old ∷ []) }
        ensures numbers { OnOk result (numbered_in self.new ≡ numbered_in self.old ++ part_at (wholes_in self.old) number ∷ []) }
        ensures value { OnOk result (symbol_view symbol.new ≡ at symbol.old.span (nonterminal name)) }
    {
        let named = Symbol {
            span: symbol.span,
            kind: SymbolKind::Nonterminal(NonterminalString(name)),
        };
        let symbol = mem::replace(symbol, named);
        self.waiting.push(Waiting { number, symbol })?;
        Ok(())
    }

    /// Takes all symbols from the worklist.
    pub fn take_waiting(&mut self, alloc: Global) -> Vec<Waiting>
        requires { IsNodeTable self.old }
        ensures waiting { result ≡ self.old.waiting }
        ensures numbers { map (λ w. part_at (wholes_in self.new) w.number) result.items ≡ numbered_in self.old }
        ensures none { waiting_in self.new ≡ [] }
        ensures none_numbered { numbered_in self.new ≡ [] }
        ensures nodes { self.new.nodes ≡ self.old.nodes }
        ensures names { self.new.names ≡ self.old.names }
        ensures counted { self.new.made ≡ self.old.made }
        ensures table { IsNodeTable self.new }
        ensures numbered { AreNumbered (wholes_in self.new) result.items }
    {
        mem::replace(&mut self.waiting, Vec::new(alloc))
    }

    /// Adds a new node last that is desugared: that of a symbol with its parts rewritten. The symbol is added to the worklist.
    fn enter_new(&mut self, alloc: Global, node: Node, symbol: &mut Symbol) -> NormResult<usize>
        requires table { IsNodeTable self.old }
        requires counted { IsCounted self.old }
        requires fits { Fits (wholes_in self.old) node }
        requires new { IsNew (wholes_in self.old) (built (wholes_in self.old) node) }
        requires made { own_text_in (built (wholes_in self.old) node) ≡ Some (part_text (symbol_view symbol.old)) }
        ensures refuses { Refuses result (refused_in self.old (own_at symbol.old.span (built (wholes_in self.old) node))) }
        ensures meets { OnOk result (TableMeets self.old self.new (own_at symbol.old.span (built (wholes_in self.old) node))) }
        ensures counted { OnOk result (IsCounted self.new) }
        ensures waits { OnOk result (LeavesWaiting self.old self.new (symbol_view symbol.old ∷ [])) }
        ensures value { OnOk result (symbol_view symbol.new ≡ at symbol.old.span (nonterminal (part_text (symbol_view symbol.old)))) }
        ensures number { IfOk result (λ i. StandsFor (wholes_in self.new) i (built (wholes_in self.old) node)) }
    {
        let name = self.free_text(alloc, symbol)?;
        let key = name.clone()?;
        let number = self.put_made(node, key)?;
        self.put_waiting(number, name, symbol)?;
        Ok(number)
    }

    /// The id of a node that is desugared: that of a symbol with its parts rewritten. The symbol is rewritten to the nonterminal
    /// of its text, and added to the worklist if it is new.
    ///
    /// Errors: F37 (`SharedName`) at the symbol, where its text is a declared name or the text of another node; `Memory`.
    pub fn enter_made(
        &mut self,
        alloc: Global,
        node: Node,
        symbol: &mut Symbol,
    ) -> NormResult<usize>
        requires table { IsNodeTable self.old }
        requires counted { IsCounted self.old }
        requires fits { Fits (wholes_in self.old) node }
        requires made { own_text_in (built (wholes_in self.old) node) ≡ Some (part_text (symbol_view symbol.old)) }
        ensures refuses { Refuses result (refused_in self.old (own_at symbol.old.span (built (wholes_in self.old) node))) }
        ensures meets { OnOk result (TableMeets self.old self.new (own_at symbol.old.span (built (wholes_in self.old) node))) }
        ensures counted { OnOk result (IsCounted self.new) }
        ensures waits { OnOk result (LeavesWaiting self.old self.new (symbol_view symbol.old ∷ [])) }
        ensures value { OnOk result (symbol_view symbol.new ≡ at symbol.old.span (nonterminal (part_text (symbol_view symbol.old)))) }
        ensures number { IfOk result (λ i. StandsFor (wholes_in self.new) i (built (wholes_in self.old) node)) }
    {
        match self.nodes.find(&node) {
            Some(number) => {
                self.put_name(number, symbol)?;
                Ok(number)
            }
            None => self.enter_new(alloc, node, symbol),
        }
    }
}
