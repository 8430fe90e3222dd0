//! Modules beside the circuits as which they are exported.
use crate::designs::modules_of;
use crate::runs::{run, run_beside};
use aiger_laws::tree::{AndGate, Latch};
use aiger_reader::read_aiger::read_aiger;
use aiger_reader::text::AigerText;
use hw_interpreter::design::{Module, Port, Setting};
use hw_interpreter::machine::{Stepped, step};
use hw_interpreter::modules::{depth_of, find_module, module_state};
use hw_model::types::Ty;
use operation_values::bit_string::BitString;
use std::alloc::{AllocError, Global};
use std::thread::Threads;

// How many steps a module and its circuit take; and how many they take with more bits than these.
const STEPS: u64 = 64;

const WIDE_STEPS: u64 = 4;

const MOST_BITS: u64 = 128;

// How deep values of nets stand at most.
const DEPTH: u32 = 2100;

// What the line of a public module begins with.
const PUBLIC: &str = "hw.module @";

// What the line of a register with an asynchronous reset has.
const ASYNC: &str = "reset async";

// How a module with several clocks or an asynchronous reset is refused.
const SEVERAL_CLOCKS: &str = "error: 'hw.module' A2: several clocks";

const ASYNC_RESET: &str = "error: 'hw.module' A3: asynchronous reset";

// The text with all modules private but the one of a symbol.
fn with_one_public(alloc: Global, text: &str, symbol: &str) -> Result<String, AllocError> {
    let mut made = String::new(alloc);
    for line in text.split_inclusive('\n') {
        match line.strip_prefix(PUBLIC) {
            Some(rest) if !is_header_of(rest, symbol) => {
                made.push_str("hw.module private @")?;
                made.push_str(rest)?;
            }
            _ => made.push_str(line)?,
        }
    }
    Ok(made)
}

// Whether what follows `@` begins with this symbol and its ports.
fn is_header_of(rest: &str, symbol: &str) -> bool {
    match rest.split_once('(') {
        Some((name, _)) => name == symbol,
        None => false,
    }
}

// A number whose bits look like chance.
fn scrambled(number: u64) -> u64 {
    let mixed = number.wrapping_mul(0x9E37_79B9_7F4A_7C15);
    let folded = (mixed ^ (mixed >> 29)).wrapping_mul(0xBF58_476D_1CE4_E5B9);
    folded ^ (folded >> 32)
}

// The bit of a number in a step: the first six count through all their words, the others look like chance.
fn bit_in(taken: u64, number: u64) -> bool {
    if number < 6 {
        (taken >> number) % 2 == 1
    } else {
        scrambled(taken.wrapping_mul(65_537).wrapping_add(number)) % 2 == 1
    }
}

// So many bits of a step, from the one of a number on.
fn bits_in(alloc: Global, taken: u64, first: u64, count: u64) -> Result<Vec<bool>, AllocError> {
    let mut bits = Vec::new(alloc);
    for number in 0..count {
        bits.push(bit_in(taken, first.wrapping_add(number)))?;
    }
    Ok(bits)
}

// Adds for each bit of a port whether it is a clock's.
fn add_bits(clocks: &mut Vec<bool>, port: &Port) -> Result<(), AllocError> {
    for _ in 0..port.ty.width() {
        clocks.push(matches!(port.ty, Ty::Clock))?;
    }
    Ok(())
}

// Of each bit of a module's inputs, whether it is a clock's.
fn clock_bits(alloc: Global, module: &Module) -> Result<Vec<bool>, AllocError> {
    let mut clocks = Vec::new(alloc);
    for port in &module.ports {
        if !port.is_output {
            add_bits(&mut clocks, port)?;
        }
    }
    Ok(clocks)
}

// How many of the bits are 0.
fn count_zeros(bits: &[bool]) -> u64 {
    let mut count = 0_u64;
    for bit in bits {
        count = count.saturating_add(u64::from(!*bit));
    }
    count
}

// The bits of all inputs: each clock's is 1.
fn with_risen_clocks(
    alloc: Global,
    clocks: &[bool],
    free: &[bool],
) -> Result<Vec<bool>, AllocError> {
    let mut inputs = Vec::new(alloc);
    let mut rest = free;
    for is_clock in clocks {
        match rest.split_first() {
            Some((bit, others)) if !*is_clock => {
                inputs.push(*bit)?;
                rest = others;
            }
            _ => inputs.push(*is_clock)?,
        }
    }
    Ok(inputs)
}

// The bit of a literal, where variables have these bits.
fn literal_bit(values: &[bool], literal: u32) -> bool {
    let bit = values.get((literal / 2) as usize).copied().unwrap_or(false);
    bit ^ (literal % 2 == 1)
}

// The bits of literals.
fn literal_bits(alloc: Global, values: &[bool], literals: &[u32]) -> Result<Vec<bool>, AllocError> {
    let mut bits = Vec::new(alloc);
    for literal in literals {
        bits.push(literal_bit(values, *literal))?;
    }
    Ok(bits)
}

// Gives the variable of a literal a bit.
fn define(values: &mut [bool], literal: u32, bit: bool) {
    if let Some(value) = values.get_mut((literal / 2) as usize) {
        *value = bit;
    }
}

// Gives inputs their bits.
fn define_inputs(values: &mut [bool], inputs: &[u32], bits: &[bool]) {
    for (literal, bit) in inputs.iter().zip(bits) {
        define(values, *literal, *bit);
    }
}

// Gives latches their bits.
fn define_latches(values: &mut [bool], latches: &[Latch], bits: &[bool]) {
    for (latch, bit) in latches.iter().zip(bits) {
        define(values, latch.literal, *bit);
    }
}

// Gives gates, which stand in order, their bits.
fn define_gates(values: &mut [bool], gates: &[AndGate]) {
    for gate in gates {
        let bit = literal_bit(values, gate.left) && literal_bit(values, gate.right);
        define(values, gate.literal, bit);
    }
}

// The literals whose bits latches hold next.
fn next_literals(alloc: Global, latches: &[Latch]) -> Result<Vec<u32>, AllocError> {
    let mut literals = Vec::new(alloc);
    for latch in latches {
        literals.push(latch.next)?;
    }
    Ok(literals)
}

// The step of a circuit whose gates stand in order.
fn circuit_step(
    alloc: Global,
    circuit: &AigerText,
    inputs: &[bool],
    content: &[bool],
) -> Result<Stepped, AllocError> {
    let variables = circuit.inputs.len().saturating_add(circuit.latches.len());
    let count = variables
        .saturating_add(circuit.gates.len())
        .saturating_add(1);
    let mut values = vec![in alloc; false; count]?;
    define_inputs(&mut values, &circuit.inputs, inputs);
    define_latches(&mut values, &circuit.latches, content);
    define_gates(&mut values, &circuit.gates);
    let next = next_literals(alloc, &circuit.latches)?;
    let outputs = literal_bits(alloc, &values, &circuit.outputs)?;
    let content = literal_bits(alloc, &values, &next)?;
    Ok(Stepped {
        outputs: BitString::of(alloc, &outputs)?,
        content: BitString::of(alloc, &content)?,
    })
}

// A module, its circuit, which bits of its inputs are clocks, and how many its registers hold.
#[derive(Drop)]
struct Pair<'a> {
    modules: &'a [Module],
    symbol: &'a str,
    circuit: &'a AigerText,
    clocks: &'a [bool],
    held: u64,
}

impl Pair<'_> {
    // Whether module and circuit have as many inputs and as much content.
    fn is_alike(&self) -> bool {
        self.circuit.inputs.len() as u64 == count_zeros(self.clocks)
            && self.circuit.latches.len() as u64 == self.held
    }

    // Whether the module and the circuit take this step alike.
    fn steps_alike(&self, alloc: Global, taken: u64) -> Result<bool, AllocError> {
        let count = count_zeros(self.clocks);
        let free = bits_in(alloc, taken, 0, count)?;
        let content = bits_in(alloc, taken, count, self.held)?;
        let inputs = with_risen_clocks(alloc, self.clocks, &free)?;
        let before = BitString::zeros(alloc, inputs.len() as u64)?;
        let at = Setting {
            modules: self.modules,
            top: self.symbol.as_bytes(),
            inputs: inputs.as_slice(),
            content: content.as_slice(),
        };
        let Ok(one) = step(alloc, before.as_slice(), &at, DEPTH) else {
            return Ok(false);
        };
        let other = circuit_step(alloc, self.circuit, &free, &content)?;
        Ok(
            one.outputs.as_slice() == other.outputs.as_slice()
                && one.content.as_slice() == other.content.as_slice(),
        )
    }

    // How many steps they take.
    fn step_count(&self) -> u64 {
        if (self.clocks.len() as u64).saturating_add(self.held) > MOST_BITS {
            WIDE_STEPS
        } else {
            STEPS
        }
    }

    // Whether they take all steps alike.
    fn runs_alike(&self, alloc: Global) -> Result<bool, AllocError> {
        let mut alike = self.is_alike();
        for taken in 0..self.step_count() {
            alike &= self.steps_alike(alloc, taken)?;
        }
        Ok(alike)
    }
}

// Whether all ports are words of one bit, of which just the first is a clock where registers hold something.
fn is_read_alike(module: &Module, clocks: &[bool], held: u64) -> bool {
    let is_first = clocks.first().copied().unwrap_or(false);
    let is_clock_first = is_first == (held > 0) && !clocks.iter().skip(1).any(|is_clock| *is_clock);
    is_clock_first && module.ports.iter().all(|port| port.ty.width() == 1)
}

// Whether `lec` says that the module of a symbol in a text equals the one that is imported.
fn is_imported_as(
    rt: &(impl Threads + Sync),
    alloc: Global,
    text: &str,
    symbol: &str,
    exported: &str,
) -> Result<bool, AllocError> {
    let imported = run(rt, alloc, "translate --import-aiger", exported)?;
    let Ok(design) = str::from_utf8(imported.out.contents()) else {
        return Ok(false);
    };
    let words = format!(in alloc; "lec - steps -c1 {symbol} -c2 aiger")?;
    let ended = run_beside(rt, alloc, words.as_str(), text, design)?;
    Ok(ended.is(0, "c1 == c2\n", ""))
}

// Whether the module of a symbol in a text takes steps as a text in the AIGER format says, and where it has the same ports equals what
// is imported of that.
fn is_circuit_of(
    rt: &(impl Threads + Sync),
    alloc: Global,
    text: &str,
    symbol: &str,
    exported: &str,
) -> Result<bool, AllocError> {
    let Some(modules) = modules_of(alloc, text.as_bytes())? else {
        return Ok(false);
    };
    let Ok(circuit) = read_aiger(alloc, exported.as_bytes()) else {
        return Ok(false);
    };
    let Some(module) = find_module(&modules, symbol.as_bytes()) else {
        return Ok(false);
    };
    let Ok(held) = module_state(&modules, depth_of(&modules), symbol.as_bytes()) else {
        return Ok(false);
    };
    let clocks = clock_bits(alloc, module)?;
    let is_again = !is_read_alike(module, &clocks, held)
        || is_imported_as(rt, alloc, text, symbol, exported)?;
    let pair = Pair {
        modules: &modules,
        symbol,
        circuit: &circuit,
        clocks: &clocks,
        held,
    };
    Ok(is_again && pair.runs_alike(alloc)?)
}

// The one public module of a text, from its symbol on.
fn public_module(text: &str) -> &str {
    let Some((_, rest)) = text.split_once(PUBLIC) else {
        return "";
    };
    match rest.split_once("hw.module") {
        Some((module, _)) => module,
        None => rest,
    }
}

// Whether a module may have several clocks.
fn has_several_clocks(alloc: Global, text: &str, symbol: &str) -> Result<bool, AllocError> {
    let Some(modules) = modules_of(alloc, text.as_bytes())? else {
        return Ok(false);
    };
    let Some(module) = find_module(&modules, symbol.as_bytes()) else {
        return Ok(false);
    };
    let clocks = clock_bits(alloc, module)?;
    Ok((clocks.len() as u64).saturating_sub(count_zeros(&clocks)) > 1)
}

// Whether the one public module of a text may have an asynchronous reset, of its own or in an instance.
fn has_async_reset(text: &str) -> bool {
    let module = public_module(text);
    module.contains(ASYNC) || (module.contains("hw.instance") && text.contains(ASYNC))
}

// Whether the one public module of a text, that of a symbol, is refused by this error message: it has several clocks, or an asynchronous
// reset.
fn is_refused_by(
    alloc: Global,
    text: &str,
    symbol: &str,
    message: &str,
) -> Result<bool, AllocError> {
    Ok(
        (message.contains(SEVERAL_CLOCKS) && has_several_clocks(alloc, text, symbol)?)
            || (message.contains(ASYNC_RESET) && has_async_reset(text)),
    )
}

/// Whether the module of a symbol in a text is exported in the AIGER format as a circuit that takes steps as the module does, from any
/// content, where its clock rises in each, and that is imported as an equal module where all ports have one bit; a module with several
/// clocks or an asynchronous reset is refused. The error comes only when out of memory.
pub fn has_circuit(
    rt: &(impl Threads + Sync),
    alloc: Global,
    text: &str,
    symbol: &str,
) -> Result<bool, AllocError> {
    let one = with_one_public(alloc, text, symbol)?;
    let ended = run(rt, alloc, "translate --export-aiger", one.as_str())?;
    if ended.code == 0 {
        return match str::from_utf8(ended.out.contents()) {
            Ok(exported) => is_circuit_of(rt, alloc, one.as_str(), symbol, exported),
            Err(_) => Ok(false),
        };
    }
    let message = String::from_utf8_lossy(alloc, ended.err.contents())?;
    Ok(ended.code == 1 && is_refused_by(alloc, one.as_str(), symbol, &message)?)
}
