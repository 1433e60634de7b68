// What the meaning of a pmap shuts out: the loss of what even the minimal pmap keeps.
ghost use Rattle.std.specs.Prelude.{◌≡◌, true};
ghost use Rattle.minimal.specs.Law.{NothingDueIsLost};

// The theorem that no pmap may lose a wired mapping, the latest entry or a modified frame; it computes nothing.
pub fn nothing_due_is_lost() -> bool
    ensures answer { result ≡ true }
    ensures law { NothingDueIsLost }
{
    true
}
