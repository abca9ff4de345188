//! The calls, each by the file of its layer.

use crate::call::Call;
use crate::out::Out;
use crate::stop::Stop;
use crate::{
    carrying, copies, counting, encodings, files, instances, models, problems, standing, syntax,
    untyped,
};

/// Makes the call of this name, and prints what it answers.
pub fn answer(name: &[u8], mut call: Call<'_>, out: &mut Out) -> Result<(), Stop> {
    let known = syntax::answer(name, &mut call, out)?
        || problems::answer(name, &mut call, out)?
        || instances::answer(name, &mut call, out)?
        || models::answer(name, &mut call, out)?
        || counting::answer(name, &mut call, out)?
        || standing::answer(name, &mut call, out)?
        || encodings::answer(name, &mut call, out)?
        || untyped::answer(name, &mut call, out)?
        || carrying::answer(name, &mut call, out)?
        || copies::answer(name, &mut call, out)?
        || files::answer(name, &mut call, out)?;
    if known { Ok(()) } else { Err(Stop::Shape) }
}
