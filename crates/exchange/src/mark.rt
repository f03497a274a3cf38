// A mark of a row or a setting, set where it is 1. It stays a number, since the definitions take any.
ghost use Rattle.std.specs.Prelude.{◌≡◌};
ghost use Rattle.exchange.specs.Settings.{is_set as is_set_mark};

pub fn is_set(mark: u64) -> bool
    ensures { result ≡ is_set_mark mark }
{
    mark == 1
}
