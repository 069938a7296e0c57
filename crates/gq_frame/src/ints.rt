// One INT fed into a content.
ghost use Rattle.std.specs.Prelude.{OnOk};
ghost use Rattle.gq_value.specs.Accums.{One};
ghost use Rattle.gq_value.specs.Val.{Int};
ghost use Rattle.gq_nest.specs.declared.content.Content.{out-Content};
ghost use Rattle.gq_nest.specs.Forms.{Feeds};
ghost use Rattle.gq_frame.specs.Ints.{AddsInt};

use gq_accum::{Count, Scalar, Sum, count, total};
use gq_base::OutOfMemory;
use gq_nest::Content;
use gq_value::{Input, Value};
use std::alloc::Global;

/// Feeds a content with an INT. Only a collection needs memory.
pub(crate) fn feed_content(alloc: Global, content: &mut Content, x: i64) -> Result<(), OutOfMemory>
    ensures { OnOk result (Feeds (out-Content content.old) (One (Int x)) (out-Content content.new)) }
{
    match content {
        Content::Scalar(scalar) => {
            add(scalar, x);
            Ok(())
        }
        _ => content.feed(alloc, &Input::One(Value::Int(x))),
    }
}

/// Adds an INT to a scalar. As in `Scalar::feed`, one whose kind takes no INT stays as it is.
fn add(scalar: &mut Scalar, x: i64)
    ensures { AddsInt scalar.old x scalar.new }
{
    match scalar {
        Scalar::SumInt(sum) => *sum = Sum::of(total(sum.get(), i128::from(x))),
        Scalar::MinInt(least) => *least = x.min(*least),
        Scalar::MaxInt(most) => *most = x.max(*most),
        Scalar::BitOr(bits) => *bits = x | *bits,
        Scalar::BitAnd(bits) => *bits = x & *bits,
        Scalar::Avg(mean) => {
            mean.sum = Sum::of(total(mean.sum.get(), i128::from(x)));
            mean.count = Count::of(count(mean.count.get(), 1));
        }
        Scalar::SumUInt(_)
        | Scalar::MinUInt(_)
        | Scalar::MaxUInt(_)
        | Scalar::Or(_)
        | Scalar::And(_) => {}
    }
}
