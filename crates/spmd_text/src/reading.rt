//! A text is read whole.

ghost use Rattle.std.specs.Prelude.{◌≡◌, ◌++◌, IfErr, IfOk, IfSome, None, OnOk, Some, false};
ghost use Rattle.spmd_text.specs.FirstFaults.{IsFirstWrongLine, AreReadablePieces};
ghost use Rattle.spmd_text.specs.parts.Lines.{IsEnded};
ghost use Rattle.spmd_text.specs.Programs.{SaysProgram, parameters_of};
ghost use Rattle.spmd_text.specs.parts.Statements.{held};
ghost use Rattle.spmd_text.specs.Texts.{HasTextFault, IsSpmdText, grammar_fault, is_memory_reason};

use crate::blocks::program;
use crate::cutting::cut;
use crate::fault::{ParseFault, ParseReason, TextFault};
use crate::keeping::Made;
use crate::parser::Parser;
use crate::piece::Pieces;
use spmd_tree::SpmdStatement;
use std::alloc::{AllocError, Global};

/// Whether standard sends are buffered.
#[derive(Clone, Copy)]
pub enum SpmdPolicy {
    Any,
    Never,
    Always,
}

/// What was read of a text.
#[derive(Drop)]
struct Reading {
    policy: SpmdPolicy,
    statements: Made,
    /// What is wrong first: the statements mean nothing then.
    fault: Option<ParseFault>,
}

/// An SPMD text that was read.
#[derive(Drop)]
pub struct SpmdText {
    pub policy: SpmdPolicy,
    pub program: SpmdStatement,
    /// The names of the text, in the order in which they first stand in it.
    pub names: Vec<Vec<u8>>,
    /// The places of the parameters' names, in their order.
    pub parameters: Vec<u32>,
}

/// What is wrong first, and on which line.
fn first_fault(parser: &Parser<'_>, line: u32) -> Option<ParseFault>
    ensures sound { result ≡ None → parser.now.fault ≡ None }
    ensures told { IfSome result (λ fault. parser.now.fault ≡ Some fault.reason) }
    ensures line { IfSome result (λ fault. fault.line ≡ line) }
{
    match parser.fault {
        None => None,
        Some(reason) => Some(ParseFault { line, reason }),
    }
}

/// Reads the pieces. Where a fault is told, other than want of memory, they say nothing that can be
/// read.
fn read(alloc: Global, found: &Pieces) -> Reading
    ensures said { result.fault ≡ None → SaysProgram found.now.names.items found.now.tokens.items result.policy (held result.statements) }
    ensures told { IfSome result.fault (λ fault. is_memory_reason fault.reason ≡ false →
        AreReadablePieces found.now.names.items found.now.tokens.items → ⊥) }
    ensures first { IfSome result.fault (λ fault. is_memory_reason fault.reason ≡ false → IsEnded found.now.tokens.items
        → IsFirstWrongLine found.now.names.items found.now.tokens.items fault.line) }
{
    let mut parser = Parser {
        alloc,
        rest: found.tokens.as_slice(),
        names: found.names.as_slice(),
        parameters: Vec::new(alloc),
        loops: Vec::new(alloc),
        in_parameter: false,
        fault: None,
    };
    let mut line = 1;
    let (policy, statements) = program(&mut parser, &mut line);
    Reading {
        policy,
        statements,
        fault: first_fault(&parser, line),
    }
}

/// Adds the places of the names of the parameters in the statement.
fn put_parameters(out: &mut Vec<u32>, statement: &SpmdStatement) -> Result<(), AllocError>
    ensures { OnOk result (out.new.items ≡ out.old.items ++ parameters_of statement.now) }
{
    match statement {
        SpmdStatement::Sequence(a, b) => {
            put_parameters(out, a)?;
            put_parameters(out, b)
        }
        SpmdStatement::Parameter { name, .. } => {
            out.push(*name)?;
            Ok(())
        }
        _ => Ok(()),
    }
}

/// Whether the allocator refused memory.
fn is_memory(reason: ParseReason) -> bool
    ensures { result ≡ is_memory_reason reason }
{
    match reason {
        ParseReason::Memory => true,
        _ => false,
    }
}

/// What is told of a text that has pieces.
fn grammar_fault(fault: ParseFault) -> TextFault
    ensures { result ≡ grammar_fault fault }
{
    if is_memory(fault.reason) {
        return TextFault::Memory;
    }
    TextFault::Grammar(fault)
}

/// Reads a text. What is read is what the text says, as `specs/Texts.antt` defines it. Where a
/// fault of the grammar is told, the text says nothing, and its line is the first that is wrong: no
/// text that can be read has it behind the lines before it. A statement that goes on over several
/// lines is told with the number of the first of them.
pub fn parse(alloc: Global, bytes: &[u8]) -> Result<SpmdText, TextFault>
    ensures text { IfOk result (λ text. IsSpmdText text bytes.now) }
    ensures fault { IfErr result (λ fault. HasTextFault bytes.now fault) }
{
    if bytes.len() > 65_536 {
        return Err(TextFault::TooLarge);
    }
    let found = match cut(alloc, bytes) {
        Err(fault) => return Err(fault),
        Ok(found) => found,
    };
    let Reading {
        policy,
        statements,
        fault,
    } = read(alloc, &found);
    if let Some(fault) = fault {
        return Err(grammar_fault(fault));
    }
    let Some(statements) = statements else {
        return Err(TextFault::Memory);
    };
    let mut parameters = Vec::new(alloc);
    match put_parameters(&mut parameters, &statements) {
        Err(AllocError) => return Err(TextFault::Memory),
        Ok(()) => {}
    }
    Ok(SpmdText {
        policy,
        program: Box::into_inner(statements),
        names: found.names,
        parameters,
    })
}
