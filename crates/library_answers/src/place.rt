//! Where something is told of: its code, and its place in the text.
ghost use Rattle.std.specs.Prelude.{◌≡◌, ◌∷◌, IfOk};
ghost use Rattle.std.specs.Fmt.{decimal};
ghost use Rattle.block_rules.specs.RuleNames.{rule_name};
ghost use Rattle.library_answers.specs.Told.{IsNowhere, IsPlaceOf};

use block_rules::{Refusal, Rule};
use ir_ast::Module;
use ir_tokens::{Position, TEXT_LIMIT, Token, read_tokens};
use messages::{Numbers, first_token};
use std::alloc::{AllocError, Global};

/// A code, and where it is told of, in C's layout.
#[repr(C)]
#[derive(Clone, Copy)]
pub struct Place {
    /// The letter of the code, 75 of K6, or 0 where there is no code.
    pub letter: u32,
    /// The number of the code, 6 of K6.
    pub number: u32,
    /// The numbers of the refused instruction, each from 0: of its function, of its block there, and of it in the block. Each is the largest
    /// number where no instruction is refused.
    pub function: usize,
    pub block: usize,
    pub instruction: usize,
    /// The line and the column in the text that is at fault, from 1, or 0 where none is known.
    pub line: usize,
    pub column: usize,
}

impl Place {
    /// No code and no place.
    pub fn nowhere() -> Place
        ensures { IsNowhere result }
    {
        Place {
            letter: 0,
            number: 0,
            function: usize::MAX,
            block: usize::MAX,
            instruction: usize::MAX,
            line: 0,
            column: 0,
        }
    }
}

/// The number in the code of a rule.
fn number_of(rule: Rule) -> u32
    ensures { rule_name rule ≡ 75 ∷ decimal result }
{
    match rule {
        Rule::K1 => 1,
        Rule::K2 => 2,
        Rule::K3 => 3,
        Rule::K4 => 4,
        Rule::K5 => 5,
        Rule::K6 => 6,
        Rule::K7 => 7,
        Rule::K8 => 8,
        Rule::K9 => 9,
        Rule::K10 => 10,
        Rule::K11 => 11,
        Rule::K12 => 12,
        Rule::K13 => 13,
        Rule::K14 => 14,
        Rule::K15 => 15,
        Rule::K16 => 16,
        Rule::K17 => 17,
        Rule::K18 => 18,
        Rule::K19 => 19,
        Rule::K20 => 20,
    }
}

/// The first token of a refused instruction in the text of its module, if it is found there.
fn token_of(
    alloc: Global,
    of_module: &Module,
    text: &[u8],
    refusal: &Refusal,
) -> Result<Option<Token>, AllocError> {
    if text.len() > TEXT_LIMIT {
        return Ok(None);
    }
    let functions = of_module.functions.as_slice();
    let number = refusal.func.number() as usize;
    let Some(function) = functions.get(number) else {
        return Ok(None);
    };
    let lexed = read_tokens(alloc, text)?;
    let found = first_token(
        alloc,
        text,
        lexed.tokens.as_slice(),
        of_module.symbols.name_at(function.symbol.number() as usize),
        Numbers {
            function: number,
            block: refusal.block.number() as usize,
            place: refusal.instr,
        },
        of_module,
    );
    drop(lexed);
    found
}

/// Where a refused instruction is, in the text of its module.
pub(crate) fn place_of_refusal(
    alloc: Global,
    of_module: &Module,
    text: &[u8],
    refusal: &Refusal,
) -> Result<Place, AllocError>
    ensures { IfOk result (IsPlaceOf refusal.now) }
{
    let (line, column) = match token_of(alloc, of_module, text, refusal)? {
        Some(token) => {
            let Position { line, column } = Position::of(text, token.start);
            (line, column)
        }
        None => (0, 0),
    };
    Ok(numbers_of(refusal, line, column))
}

/// The rule and the numbers of a refused instruction, which is at this line and column.
pub(crate) fn numbers_of(refusal: &Refusal, line: usize, column: usize) -> Place
    ensures { IsPlaceOf refusal.now result }
{
    Place {
        letter: b'K' as u32,
        number: number_of(refusal.rule),
        function: refusal.func.number() as usize,
        block: refusal.block.number() as usize,
        instruction: refusal.instr,
        line,
        column,
    }
}
