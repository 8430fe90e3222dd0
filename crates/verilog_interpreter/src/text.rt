//! Reads a Verilog text of the subset that is printed (IEEE 1364-2005, Annex A), for tests. That it reads by the grammar
//! of `specs/` is not proved, only that it is safe and ends.
use crate::cursor::Cursor;
use crate::fault::{Fault, require, require_some};
use crate::tokens::{Token, tokens};
use crate::tree::{
    Always, Branch, Connection, Declared, Expression, Instance, Item, Module, Node, Role,
    only_name, position_of,
};
use std::alloc::Global;

/// The modules of a text.
///
/// `Unreadable` where the text is no sequence of modules of the subset: names are declared once and before use, selects
/// lie in their ranges, divisors are literals other than 0, and words have 1 to 128 bits.
pub fn modules(alloc: Global, text: &[u8]) -> Result<Vec<Module<'_>>, Fault> {
    let tokens = tokens(alloc, text)?;
    all_modules(alloc, tokens.as_slice())
}

// The modules of these tokens.
fn all_modules<'t>(alloc: Global, tokens: &[Token<'t>]) -> Result<Vec<Module<'t>>, Fault> {
    let mut cursor = Cursor {
        alloc,
        rest: tokens,
    };
    let mut all = Vec::new(alloc);
    for _ in 0..tokens.len() {
        if cursor.rest.is_empty() {
            break;
        }
        let module = cursor.module()?;
        all.push(module)?;
    }
    Ok(all)
}

// Puts a declared name after those that are there.
fn declare<'t>(declared: &mut Vec<Declared<'t>>, thing: Declared<'t>) -> Result<(), Fault> {
    require(position_of(declared.as_slice(), thing.name).is_none())?;
    declared.push(thing)?;
    Ok(())
}

// The position of a declared name of this kind.
fn position_as(declared: &[Declared], name: &[u8], roles: &[Role]) -> Result<usize, Fault> {
    let at = require_some(position_of(declared, name))?;
    let found = require_some(declared.get(at).copied())?;
    for role in roles {
        if *role == found.role {
            return Ok(at);
        }
    }
    Err(Fault::Unreadable)
}

impl<'r, 't> Cursor<'r, 't> {
    // A module.
    fn module(&mut self) -> Result<Module<'t>, Fault> {
        self.word(b"module")?;
        let name = self.name()?;
        let mut declared = self.ports()?;
        self.mark(b';')?;
        let mut items = Vec::new(self.alloc);
        for _ in 0..self.rest.len() {
            if self.takes_word(b"endmodule") {
                return Ok(Module {
                    name,
                    declared,
                    items,
                });
            }
            self.item(&mut declared, &mut items)?;
        }
        Err(Fault::Unreadable)
    }

    // The ports of a module, if it has a list of them.
    fn ports(&mut self) -> Result<Vec<Declared<'t>>, Fault> {
        let mut declared = Vec::new(self.alloc);
        if !self.takes_mark(b'(') {
            return Ok(declared);
        }
        self.port(&mut declared)?;
        for _ in 0..self.rest.len() {
            if !self.takes_mark(b',') {
                break;
            }
            self.port(&mut declared)?;
        }
        self.mark(b')')?;
        Ok(declared)
    }

    // A port.
    fn port(&mut self, declared: &mut Vec<Declared<'t>>) -> Result<(), Fault> {
        let role = if self.takes_word(b"input") {
            Role::Input
        } else {
            self.word(b"output")?;
            Role::Output
        };
        self.word(b"wire")?;
        self.declaration(declared, role)
    }

    // A range and a name that are declared as this.
    fn declaration(&mut self, declared: &mut Vec<Declared<'t>>, role: Role) -> Result<(), Fault> {
        let range = self.range()?;
        let name = self.name()?;
        let thing = Declared {
            name,
            role,
            width: range.unwrap_or(1),
            has_range: range.is_some(),
        };
        declare(declared, thing)
    }

    // A declaration or another item.
    fn item(
        &mut self,
        declared: &mut Vec<Declared<'t>>,
        items: &mut Vec<Item<'t>>,
    ) -> Result<(), Fault> {
        if self.takes_word(b"wire") {
            self.declaration(declared, Role::Wire)?;
            return self.mark(b';');
        }
        if self.takes_word(b"reg") {
            self.declaration(declared, Role::Reg)?;
            return self.mark(b';');
        }
        let item = self.module_item(declared.as_slice())?;
        items.push(item)?;
        Ok(())
    }

    // An assignment, a register or an instance.
    fn module_item(&mut self, declared: &[Declared]) -> Result<Item<'t>, Fault> {
        if self.takes_word(b"assign") {
            return self.assignment(declared);
        }
        if self.takes_word(b"always") {
            let register = self.register(declared)?;
            return Ok(Item::Register(register));
        }
        let child = self.instance(declared)?;
        Ok(Item::Child(child))
    }

    // An assignment after `assign`.
    fn assignment(&mut self, declared: &[Declared]) -> Result<Item<'t>, Fault> {
        let name = self.name()?;
        let target = position_as(declared, name, &[Role::Wire, Role::Output])?;
        self.operator(b"=")?;
        let value = self.expression(declared)?;
        self.mark(b';')?;
        Ok(Item::Assign { target, value })
    }

    // A register after `always`.
    fn register(&mut self, declared: &[Declared]) -> Result<Always, Fault> {
        self.mark(b'@')?;
        self.mark(b'(')?;
        let clock = self.event(declared)?;
        let second_event = self.second_event(declared)?;
        self.mark(b')')?;
        let mut branches = Vec::new(self.alloc);
        let target = self.branches(declared, &mut branches)?;
        require(fit_event(branches.as_slice(), second_event))?;
        Ok(Always {
            clock,
            second_event,
            target,
            branches,
        })
    }

    // `posedge` and the name of an input.
    fn event(&mut self, declared: &[Declared]) -> Result<usize, Fault> {
        self.word(b"posedge")?;
        let name = self.name()?;
        position_as(declared, name, &[Role::Input])
    }

    // `or` and another event, or nothing.
    fn second_event(&mut self, declared: &[Declared]) -> Result<Option<usize>, Fault> {
        if !self.takes_word(b"or") {
            return Ok(None);
        }
        let net = self.event(declared)?;
        Ok(Some(net))
    }

    // One branch, or two of one register: its position.
    fn branches(
        &mut self,
        declared: &[Declared],
        branches: &mut Vec<Branch>,
    ) -> Result<usize, Fault> {
        let target = self.branch(declared, branches)?;
        if branches_go_on(branches.as_slice()) && self.takes_word(b"else") {
            let other = self.branch(declared, branches)?;
            require(other == target)?;
        }
        Ok(target)
    }

    // A condition, if there is one, and a load: the position of its register.
    fn branch(
        &mut self,
        declared: &[Declared],
        branches: &mut Vec<Branch>,
    ) -> Result<usize, Fault> {
        let condition = self.condition(declared)?;
        let name = self.name()?;
        let target = position_as(declared, name, &[Role::Reg])?;
        self.operator(b"<=")?;
        let value = self.expression(declared)?;
        self.mark(b';')?;
        branches.push(Branch { condition, value })?;
        Ok(target)
    }

    // `if` and a condition, or nothing.
    fn condition(&mut self, declared: &[Declared]) -> Result<Option<Expression>, Fault> {
        if !self.takes_word(b"if") {
            return Ok(None);
        }
        self.mark(b'(')?;
        let condition = self.expression(declared)?;
        self.mark(b')')?;
        Ok(Some(condition))
    }

    // An instance.
    fn instance(&mut self, declared: &[Declared]) -> Result<Instance<'t>, Fault> {
        let module_name = self.name()?;
        self.name()?;
        self.mark(b'(')?;
        let mut connections = Vec::new(self.alloc);
        if !self.takes_mark(b')') {
            self.connections(declared, &mut connections)?;
        }
        self.mark(b';')?;
        Ok(Instance {
            module_name,
            connections,
        })
    }

    // Connections and `)`.
    fn connections(
        &mut self,
        declared: &[Declared],
        connections: &mut Vec<Connection<'t>>,
    ) -> Result<(), Fault> {
        self.connection(declared, connections)?;
        for _ in 0..self.rest.len() {
            if !self.takes_mark(b',') {
                break;
            }
            self.connection(declared, connections)?;
        }
        self.mark(b')')
    }

    // A connection.
    fn connection(
        &mut self,
        declared: &[Declared],
        connections: &mut Vec<Connection<'t>>,
    ) -> Result<(), Fault> {
        self.mark(b'.')?;
        let port = self.name()?;
        self.mark(b'(')?;
        let value = self.expression(declared)?;
        self.mark(b')')?;
        connections.push(Connection { port, value })?;
        Ok(())
    }
}

// Whether a second event, if there is one, is what the first of two branches asks for, which loads a literal, and the
// other asks for nothing.
fn fit_event(branches: &[Branch], second_event: Option<usize>) -> bool {
    let Some(net) = second_event else {
        return true;
    };
    match branches {
        [first, other] => {
            asks_for(first, net) && (is_literal(&first.value) && other.condition.is_none())
        }
        _ => false,
    }
}

// Whether a branch asks for a net alone.
fn asks_for(branch: &Branch, net: usize) -> bool {
    match &branch.condition {
        None => false,
        Some(condition) => only_name(condition) == Some(net),
    }
}

// Whether an expression is a literal.
fn is_literal(expression: &Expression) -> bool {
    match expression.nodes.as_slice() {
        [Node::Literal { .. }] => true,
        _ => false,
    }
}

// Whether the only branch has a condition.
fn branches_go_on(branches: &[Branch]) -> bool {
    match branches {
        [only] => only.condition.is_some(),
        _ => false,
    }
}
