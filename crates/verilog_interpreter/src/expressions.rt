//! Expressions of a text (IEEE 1364-2005, Annex A.8: expressions; 5.1.2: precedence of operators).
use crate::cursor::Cursor;
use crate::fault::{Fault, require, require_some};
use crate::tokens::{Token, decimal, hexadecimal, literal_parts};
use crate::tree::{Declared, Expression, Node, Operator, position_of};
use bits_core::Bits;

/// How deeply expressions nest at most.
const MOST_NESTED: u32 = 400;

// The operator that a token is.
fn operator_of(token: Token) -> Option<Operator> {
    match token {
        Token::Mark(b'^') => Some(Operator::Xor),
        Token::Operator(bytes) => named_operator(bytes),
        _ => None,
    }
}

// The operator of these bytes.
fn named_operator(bytes: &[u8]) -> Option<Operator> {
    match bytes {
        b"*" => Some(Operator::Times),
        b"/" => Some(Operator::Over),
        b"%" => Some(Operator::Modulo),
        b"+" => Some(Operator::Plus),
        b"-" => Some(Operator::Minus),
        b"&" => Some(Operator::And),
        b"|" => Some(Operator::Or),
        b"<" => Some(Operator::Below),
        b">" => Some(Operator::Above),
        _ => long_operator(bytes),
    }
}

// The operator of these bytes, if it has two or more.
fn long_operator(bytes: &[u8]) -> Option<Operator> {
    match bytes {
        b"<<" => Some(Operator::LeftShift),
        b">>" => Some(Operator::RightShift),
        b">>>" => Some(Operator::SignedRightShift),
        b"<=" => Some(Operator::AtMost),
        b">=" => Some(Operator::AtLeast),
        b"==" => Some(Operator::Equals),
        b"!=" => Some(Operator::Differs),
        _ => None,
    }
}

// Puts a part after those that are there, and says where it stands.
fn add_node(nodes: &mut Vec<Node>, node: Node) -> Result<usize, Fault> {
    let at = nodes.len();
    nodes.push(node)?;
    Ok(at)
}

// The word of a literal, cut to its width.
fn literal(word: &[u8]) -> Option<Node> {
    let (width, is_signed, digits) = literal_parts(word)?;
    let width = decimal(width)?;
    let value = hexadecimal(digits)?;
    if width == 0 || width > 128 {
        return None;
    }
    Some(Node::Literal {
        word: Bits::truncate(width, value),
        is_signed,
    })
}

// Whether the part at a position is a literal that is not 0.
fn is_divisor(nodes: &[Node], at: usize) -> bool {
    match nodes.get(at) {
        Some(Node::Literal { word, .. }) => word.value() != 0,
        _ => false,
    }
}

impl<'r, 't> Cursor<'r, 't> {
    /// The expression that comes first, over the names that are declared.
    pub fn expression(&mut self, declared: &[Declared]) -> Result<Expression, Fault> {
        let mut nodes = Vec::new(self.alloc);
        self.operands(declared, &mut nodes, MOST_NESTED, 1)?;
        Ok(Expression { nodes })
    }

    // The operator that comes first, if it binds so strongly at least.
    fn operator_from(&mut self, strength: u32) -> Option<Operator> {
        let operator = operator_of(self.first()?)?;
        if operator.strength() < strength {
            return None;
        }
        self.advance();
        Some(operator)
    }

    // An expression whose operators bind so strongly at least, `?:` being the weakest with 1.
    #[cycle(expression)]
    fn operands(
        &mut self,
        declared: &[Declared],
        nodes: &mut Vec<Node>,
        room: u32,
        strength: u32,
    ) -> Result<usize, Fault> {
        if room == 0 {
            return Err(Fault::Unreadable);
        }
        let mut left = self.operand(declared, nodes, room)?;
        for _ in 0..self.rest.len() {
            let Some(operator) = self.operator_from(strength) else {
                break;
            };
            let stronger = operator.strength() + 1;
            let right = self.operands(declared, nodes, room - 1, stronger)?;
            require(!operator.divides() || is_divisor(nodes.as_slice(), right))?;
            let node = Node::Binary {
                operator,
                left,
                right,
            };
            left = add_node(nodes, node)?;
        }
        if strength > 1 || !self.takes_mark(b'?') {
            return Ok(left);
        }
        self.choice(declared, nodes, room - 1, left)
    }

    // `yes : no` after a condition and `?`.
    #[cycle(expression)]
    fn choice(
        &mut self,
        declared: &[Declared],
        nodes: &mut Vec<Node>,
        room: u32,
        condition: usize,
    ) -> Result<usize, Fault> {
        let yes = self.operands(declared, nodes, room, 1)?;
        self.mark(b':')?;
        let no = self.operands(declared, nodes, room, 1)?;
        add_node(nodes, Node::Choice { condition, yes, no })
    }

    // A primary, or `^` and a primary.
    #[cycle(expression)]
    fn operand(
        &mut self,
        declared: &[Declared],
        nodes: &mut Vec<Node>,
        room: u32,
    ) -> Result<usize, Fault> {
        if self.takes_mark(b'^') {
            let operand = self.primary(declared, nodes, room)?;
            return add_node(nodes, Node::Odd { operand });
        }
        self.primary(declared, nodes, room)
    }

    // A primary.
    #[cycle(expression)]
    fn primary(
        &mut self,
        declared: &[Declared],
        nodes: &mut Vec<Node>,
        room: u32,
    ) -> Result<usize, Fault> {
        if room == 0 {
            return Err(Fault::Unreadable);
        }
        if self.takes_mark(b'(') {
            return self.parenthesized_expression(declared, nodes, room - 1);
        }
        if self.takes_mark(b'{') {
            return self.concat_or_replicate(declared, nodes, room - 1);
        }
        let word = self.any_word()?;
        if word == b"$signed".as_slice() || word == b"$unsigned".as_slice() {
            self.mark(b'(')?;
            let operand = self.parenthesized_expression(declared, nodes, room - 1)?;
            let is_signed = word.len() == 7;
            return add_node(nodes, Node::Cast { is_signed, operand });
        }
        let node = self.simple(declared, word)?;
        add_node(nodes, node)
    }

    // An expression after `(`, and `)`.
    #[cycle(expression)]
    fn parenthesized_expression(
        &mut self,
        declared: &[Declared],
        nodes: &mut Vec<Node>,
        room: u32,
    ) -> Result<usize, Fault> {
        let inner = self.operands(declared, nodes, room, 1)?;
        self.mark(b')')?;
        Ok(inner)
    }

    // A concatenation or a replication after `{`.
    #[cycle(expression)]
    fn concat_or_replicate(
        &mut self,
        declared: &[Declared],
        nodes: &mut Vec<Node>,
        room: u32,
    ) -> Result<usize, Fault> {
        let Some(count) = self.copies() else {
            return self.concat_parts(declared, nodes, room);
        };
        let part = self.concat_parts(declared, nodes, room)?;
        self.mark(b'}')?;
        add_node(nodes, Node::Repeated { count, part })
    }

    // How many copies a replication has, where a number and `{` come first.
    fn copies(&mut self) -> Option<u32> {
        let [Token::Word(word), Token::Mark(b'{'), rest @ ..] = self.rest else {
            return None;
        };
        let count = decimal(word)?;
        self.rest = rest;
        Some(count)
    }

    // The parts of a concatenation after `{`, and `}`.
    #[cycle(expression)]
    fn concat_parts(
        &mut self,
        declared: &[Declared],
        nodes: &mut Vec<Node>,
        room: u32,
    ) -> Result<usize, Fault> {
        let part = self.operands(declared, nodes, room, 1)?;
        let mut all = add_node(nodes, Node::Joined { before: None, part })?;
        for _ in 0..self.rest.len() {
            if !self.takes_mark(b',') {
                break;
            }
            let part = self.operands(declared, nodes, room, 1)?;
            let before = Some(all);
            all = add_node(nodes, Node::Joined { before, part })?;
        }
        self.mark(b'}')?;
        Ok(all)
    }

    // A literal, a name, or bits of a name, of which the first word is read.
    fn simple(&mut self, declared: &[Declared], word: &[u8]) -> Result<Node, Fault> {
        if let Some(node) = literal(word) {
            return Ok(node);
        }
        let net = require_some(position_of(declared, word))?;
        let named = require_some(declared.get(net).copied())?;
        if self.takes_mark(b'[') {
            return self.select(net, named);
        }
        Ok(Node::Net {
            net,
            width: named.width,
        })
    }

    // `k]` or `h:l]` after a name and `[`.
    fn select(&mut self, net: usize, named: Declared) -> Result<Node, Fault> {
        let high = self.number()?;
        let low = if self.takes_mark(b':') {
            self.number()?
        } else {
            high
        };
        self.mark(b']')?;
        if low > high || high >= 128 {
            return Err(Fault::Unreadable);
        }
        require(named.has_range && high < named.width)?;
        Ok(Node::Select {
            net,
            low,
            width: high - low + 1,
        })
    }
}
