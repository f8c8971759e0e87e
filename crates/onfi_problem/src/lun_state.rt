use onfi_group::Group;

/// What a LUN does as a problem begins. Times are ns of the channel's clock.
#[derive(Drop)]
pub enum LunState {
    /// Nothing; a group may begin on it from `since`.
    Free { since: u64 },
    /// Phases 0 to `next - 1` of the group are over, and phase `next` may start from `ready`.
    Running { group: Group, next: u8, ready: u64 },
}
