ghost use Rattle.rk_iter_laws.specs.Showing.{OpensAlike, MovesAlike};

/// An iterator that is opened over chunks that show some entries is where an iterator over these is.
pub fn an_opened_iterator_is_in_its_place()
    ensures { OpensAlike }
{}

/// A move that is not refused leads an iterator over chunks to where the machine's leads.
pub fn an_iterator_moves_as_the_machine_does()
    ensures { MovesAlike }
{}
