ghost use Rattle.std.specs.Prelude.{◌≡◌, ◌<◌, [], take, MatchOption, Some, slice_get, length};
ghost use Rattle.std.specs.List.{filter};
ghost use Rattle.onfi_core.specs.State.{is_to};
ghost use Rattle.onfi_core.specs.View.{IsOldestAt};

use onfi_request::Reply;

/// Where the first reply to the host stands.
pub fn oldest_for(host: u8, held: &[Reply]) -> Option<usize>
    ensures { MatchOption result (filter (is_to host) held.now ≡ []) (λ at. IsOldestAt host held.now at) }
{
    for (at, reply) in held.iter().enumerate() {
        if reply.host == host {
            return Some(at);
        }
    }
    None
}
