// GitHub's tag filter.
ghost use Rattle.std.specs.Prelude.{◌≡◌, length};
ghost use Rattle.rules.specs.Reading.{crate as ofCrate};
ghost use Rattle.rules.specs.Withhold.{written};
ghost use Rattle.rules.specs.Filter.{filtered, filter as filterOf, filterRefusal};
ghost use Rattle.foringamo.specs.Result.{writtenResult};

use crate::written::WrittenResult;
use rules::crate_rules;
use tagfilter::filter::filter;

// Shows a bulletin with its raw HTML, the `<` of GitHub's nine tags as `&lt;`.
#[unsafe(no_mangle)]
pub extern "C" fn foringamo_filter(bulletin: &[u8], flags: &[u8], out: &mut [u8]) -> WrittenResult
    ensures answer { result ≡ writtenResult (filterOf ofCrate bulletin.now flags.now (length out.old)) }
    ensures buffer { out.new ≡ written (filterRefusal ofCrate bulletin.now flags.now (length out.old)) (filtered ofCrate bulletin.now flags.now) out.old }
{
    WrittenResult::from(filter(crate_rules(), bulletin, flags, out))
}
