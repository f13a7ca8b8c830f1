// The library as C and Rust programs link it: each function is the one of the crate lcs under the same name, with the same promise.
#![tactic(auto)]

ghost use Rattle.std.specs.Prelude.{◌≡◌, length};
ghost use Rattle.lcs.specs.Expressions.{contained_answer, normal_answer, normal_leaves, receive_answer, receive_leaves};
ghost use Rattle.table.specs.Answers.{table_answer};
ghost use Rattle.lcs.specs.Tables.{table_code, table_out};
ghost use Rattle.common.specs.Front.{front};
ghost use Rattle.work.specs.Layout.{all_words};
ghost use Rattle.lcs.specs.Searches.{searched, search_code, search_out};
ghost use Rattle.writer.specs.Writing.{written, bytes_of, left_by};
ghost use Rattle.writer.specs.Answers.{write_answer};
ghost use Rattle.lcs.specs.Writes.{write_code, write_out};
ghost use Rattle.judge.specs.Judging.{judge_answer};
ghost use Rattle.lcs.specs.Judges.{judge_code, judge_out};
ghost use Rattle.replay.specs.Replaying.{replay_answer};
ghost use Rattle.lcs.specs.Replays.{replay_code, replay_out};

use lcs::{expressions, judges, replays, searches, tables, writes};

// Whether every word of p is a word of q.
#[unsafe(no_mangle)]
pub extern "C" fn lcs_contained(p: &[u16], q: &[u16]) -> u32
    ensures { result ≡ contained_answer p.now q.now }
{
    expressions::lcs_contained(p, q)
}

// p in normal form, in its first places.
#[unsafe(no_mangle)]
pub extern "C" fn lcs_normal(p: &mut [u16]) -> u32
    ensures value { result ≡ normal_answer p.old }
    ensures p_after { p.new ≡ normal_leaves p.old }
{
    expressions::lcs_normal(p)
}

// What a receive of the message leaves of p, in its first places.
#[unsafe(no_mangle)]
pub extern "C" fn lcs_receive(p: &mut [u16], message: u8) -> u32
    ensures value { result ≡ receive_answer p.old message }
    ensures p_after { p.new ≡ receive_leaves p.old message }
{
    expressions::lcs_receive(p, message)
}

// Whether the bytes are a good table: its counts, or the refusal.
#[unsafe(no_mangle)]
pub extern "C" fn lcs_check_table(table: &[u8], out: &mut [u64; 3]) -> u32
    ensures value { result ≡ table_code (table_answer table.now) }
    ensures out_after { out.new ≡ table_out (table_answer table.now) }
{
    tables::lcs_check_table(table, out)
}

// The search's verdict or the refusal, with its rows in the first words of the work table, and with unsafe the run in those of the run buffer.
#[unsafe(no_mangle)]
pub extern "C" fn lcs_search(
    table: &[u8],
    work: &mut [u16],
    run: &mut [u16],
    out: &mut [u64; 3],
) -> u32
    ensures value { result ≡ search_code (searched table.now work.old run.old) }
    ensures out_after { out.new ≡ search_out (searched table.now work.old run.old) }
    ensures work_after { work.new ≡ front (all_words (searched table.now work.old run.old).rows) work.old }
    ensures run_after { run.new ≡ front (searched table.now work.old run.old).run run.old }
{
    searches::lcs_search(table, work, run, out)
}

// How many bytes the list of the first rows of the work table has, which stands in the first bytes of list, or the refusal.
#[unsafe(no_mangle)]
pub extern "C" fn lcs_write_list(
    table: &[u8],
    work: &[u16],
    rows: u64,
    list: &mut [u8],
    out: &mut [u64; 3],
) -> u32
    ensures value { result ≡ write_code (write_answer table.now work.now rows (length list.old)) }
    ensures out_after { out.new ≡ write_out (write_answer table.now work.now rows (length list.old)) }
    ensures list_after { list.new ≡ left_by (written table.now work.now rows (length list.old)) (bytes_of table.now work.now rows) list.old }
{
    writes::lcs_write_list(table, work, rows, list, out)
}

// Whether the list is accepted for the table, or the first reason why not, or the refusal.
#[unsafe(no_mangle)]
pub extern "C" fn lcs_judge(table: &[u8], list: &[u8], out: &mut [u64; 3]) -> u32
    ensures value { result ≡ judge_code (judge_answer table.now list.now) }
    ensures out_after { out.new ≡ judge_out (judge_answer table.now list.now) }
{
    judges::lcs_judge(table, list, out)
}

// What the run comes to when all its words are played, or the refusal.
#[unsafe(no_mangle)]
pub extern "C" fn lcs_replay(table: &[u8], run: &[u16], out: &mut [u64; 3]) -> u32
    ensures value { result ≡ replay_code (replay_answer table.now run.now) }
    ensures out_after { out.new ≡ replay_out (replay_answer table.now run.now) }
{
    replays::lcs_replay(table, run, out)
}
