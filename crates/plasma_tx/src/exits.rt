ghost use Rattle.std.specs.Prelude.{◌≡◌, ◌<◌, ◌≤◌, ◌==◌, ◌++◌, ◌∷◌, [], find, position, vec_len, vec_capacity, OnOk, OnErr};
ghost use Rattle.std.specs.Option.{option_copied};
ghost use Rattle.plasma_tx.specs.Views.{is_responded, without_responses};
ghost use Rattle.plasma_tx.specs.Standing.{AreDistinct, without_view, with_view_changed, with_challenge_view, with_answer_view, has_no_open_view};

use super::views::{ChallengeView, ExitView, Response};
use plasma_base::NoMemory;

/// Takes out the exit at the block.
pub fn remove_exit(exits: &mut Vec<ExitView>, block: u64)
    ensures exits { exits.new.items ≡ without_view block exits.old.items }
    ensures room { vec_capacity exits.old ≤ vec_capacity exits.new }
    ensures shorter { vec_len exits.new ≤ vec_len exits.old }
{
    exits.retain(|exit| exit.block != block);
}

/// Takes out the responses to the exit of the coin at the block.
pub fn remove_responses(responses: &mut Vec<Response>, coin: u64, exit: u64)
    ensures { responses.new.items ≡ without_responses coin exit responses.old.items }
{
    responses.retain(|response| !(response.coin == coin && response.exit == exit));
}

/// Whether a response to the exit of the coin names the block.
pub fn is_responded(responses: &[Response], coin: u64, exit: u64, block: u64) -> bool
    ensures { result ≡ is_responded coin exit block responses.now }
{
    responses.iter().any(|response| {
        response.coin == coin && response.exit == exit && response.block == block
    })
}

/// Whether the exit at the block has no open challenge; so it is where there is no such exit.
pub fn has_no_open_challenge(exits: &[ExitView], block: u64) -> bool
    ensures { result ≡ has_no_open_view (find (λ exit. exit.block == block) exits.now) }
{
    match exit_at(exits, block) {
        None => true,
        Some(exit) => exit.challenges.are_answered(),
    }
}

/// The exit at the block.
fn exit_at(exits: &[ExitView], block: u64) -> Option<&ExitView>
    ensures { option_copied result ≡ find (λ exit. exit.block == block) exits.now }
{
    exits.iter().find(|exit| exit.block == block)
}

/// Challenges the exit at the block, unless it is challenged there. `NoMemory` changes nothing.
pub fn challenge_exit(
    exits: &mut Vec<ExitView>,
    block: u64,
    challenge: ChallengeView,
) -> Result<(), NoMemory>
    requires { AreDistinct exits.old.items }
    ensures ok { OnOk result (exits.new.items
        ≡ with_view_changed block (with_challenge_view challenge) exits.old.items) }
    ensures err { OnErr result (exits.new.items ≡ exits.old.items) }
{
    let Some(place) = place_of(exits.as_slice(), block) else {
        return Ok(());
    };
    let exit = &mut exits[place];
    if exit.challenges.has(challenge.block) {
        return Ok(());
    }
    exit.challenges.push(challenge)?;
    Ok(())
}

/// Answers the challenge of the exit at the block.
pub fn answer_exit(exits: &mut Vec<ExitView>, block: u64, challenged: u64)
    requires { AreDistinct exits.old.items }
    ensures { exits.new.items ≡ with_view_changed block (with_answer_view challenged) exits.old.items }
{
    if let Some(place) = place_of(exits.as_slice(), block) {
        let exit = &mut exits[place];
        exit.challenges.answer(challenged);
    }
}

/// Where the exit at the block stands.
fn place_of(exits: &[ExitView], block: u64) -> Option<usize>
    ensures { result ≡ position (λ exit. exit.block == block) exits.now }
{
    exits.iter().position(|exit| exit.block == block)
}

/// Adds an item for which there is room.
pub fn push_reserved<T: Drop>(items: &mut Vec<T>, item: T)
    requires { vec_len items.old < vec_capacity items.old }
    ensures { items.new.items ≡ items.old.items ++ item ∷ [] }
{
    let _ = items.push(item);
}
