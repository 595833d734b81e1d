// The description of a formula, from its text: signs, rows and alternatives, words.
ghost use Rattle.std.specs.Prelude.{◌≡◌, length};
ghost use Rattle.theory.specs.Limits.{input_limit};
ghost use Rattle.formulas.specs.Formula.{Formula};
ghost use Rattle.translate.specs.Translated.{Translated};
ghost use Rattle.translate.specs.Stages.{TreeTabled, TreeSettled, TreeLaid, LaidSettled, TreeMarked, TreeRead};
ghost use Rattle.translate.specs.Stages.{TreeTold};

use crate::answer::Refusal;
use crate::hand::hand_over;
use crate::homes::own_homes;
use folding::settle::settle;
use laying::laying::{Rows, lay};
use limits::{DEPTH_LIMIT, INPUT_LIMIT, wide};
use parting::tables::Tables;
use rows::flags::mark_groups;
use signs::reading::read_signs;

// Spots and alternatives are below it.
const SPOTS: usize = 2048;

// There are at most so many signs, rows of atoms, rows of ties and open groups.
const ROWS: usize = 4096;

// Settles the formula that lies in these tables, in the room for the homes of its alternatives and for its words.
fn settle_in(
    tables: &Tables,
    homes: &mut [u32],
    words: &mut [u32],
    res: &mut [u32],
) -> Result<usize, Refusal>
    requires { ((φ : Formula) × TreeTabled φ
        tables.now.arcs.now tables.now.atoms.now tables.now.ties.now tables.now.alts.now (length homes.old))
        × (length words.old ≡ input_limit) }
    ensures { TreeSettled
        tables.now.arcs.now tables.now.atoms.now tables.now.ties.now tables.now.alts.now
        (length homes.old) res.old result res.new }
{
    own_homes(homes);
    let settled = settle(tables, homes, words, 0, 0, DEPTH_LIMIT);
    let whole = settled.ok_or(Refusal::Clash)?.whole;
    hand_over(words, whole, res)
}

// Settles the formula that was laid out in the first rows of these tables.
fn settle_rows(tables: &Tables, rows: Rows, res: &mut [u32]) -> Result<usize, Refusal>
    requires { (φ : Formula) × TreeLaid φ
        tables.now.arcs.now tables.now.atoms.now tables.now.ties.now tables.now.alts.now
        rows.arcs rows.atoms rows.ties rows.alts }
    ensures { LaidSettled
        tables.now.arcs.now tables.now.atoms.now tables.now.ties.now tables.now.alts.now
        rows.arcs rows.atoms rows.ties rows.alts
        res.old result res.new }
{
    let mut homes = [0; SPOTS];
    let mut words = [0; INPUT_LIMIT];
    let laid = Tables {
        arcs: &tables.arcs[..2 * wide(rows.arcs)],
        atoms: &tables.atoms[..2 * wide(rows.atoms)],
        ties: &tables.ties[..2 * wide(rows.ties)],
        alts: tables.alts,
    };
    settle_in(&laid, &mut homes[..wide(rows.alts)], &mut words, res)
}

// Lays out the marked signs in tables, and settles the formula: "21 over 4 disjunctions nested in the text".
fn lay_tree(signs: &[u32], flagged: bool, res: &mut [u32]) -> Result<usize, Refusal>
    requires { (φ : Formula) × TreeMarked φ signs.now (length signs.now) flagged }
    ensures { (φ : Formula) → TreeMarked φ signs.now (length signs.now) flagged →
        TreeTold φ res.old result res.new }
{
    let mut arcs = [0; 2 * SPOTS];
    let mut atoms = [0; 2 * ROWS];
    let mut ties = [0; 2 * ROWS];
    let mut alts = [0; 4 * SPOTS];
    let mut frames = [0; 4 * ROWS];
    let laid = lay(
        signs,
        flagged,
        &mut arcs,
        &mut atoms,
        &mut ties,
        &mut alts,
        &mut frames,
    );
    let rows = laid.ok_or(Refusal::TooDeep)?;
    let tables = Tables {
        arcs: &arcs,
        atoms: &atoms,
        ties: &ties,
        alts: &alts,
    };
    settle_rows(&tables, rows, res)
}

// Marks the groups that have alternatives, and goes on.
fn mark_tree(signs: &mut [u32], res: &mut [u32]) -> Result<usize, Refusal>
    requires { (φ : Formula) × TreeRead φ signs.old (length signs.old) }
    ensures { (φ : Formula) → TreeRead φ signs.old (length signs.old) →
        TreeTold φ res.old result res.new }
{
    let mut flags = [false; ROWS + 1];
    let flagged = mark_groups(signs, &mut flags);
    lay_tree(signs, flagged, res)
}

// The description of the formula that the text is, in words; or why it is refused.
pub fn formula(text: &[u8], res: &mut [u32]) -> Result<usize, Refusal>
    ensures { Translated text.now res.old result res.new }
{
    let mut signs = [0; ROWS];
    let count = read_signs(text, &mut signs)?;
    mark_tree(&mut signs[..count], res)
}
