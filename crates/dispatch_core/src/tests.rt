// A caller that submits, dials and works through one port.

use crate::*;
use model_histories::PoolPort;
use model_values::*;
use net_base::*;
use partition_keys::*;
use std::alloc::Global;
use std::process::Abort;
use std::test::Fail;

mod calls;
mod courses;
mod samples;

use calls::*;
use samples::*;
